//! The models of the rows, as texts.

/// Three nodes and one vehicle.
pub(crate) const THREE: &str = r#"{"format":1,"nodes":3,"matrices":[[[0,5,9],[5,0,4],[9,4,0]]],
"vehicles":[{"start":0,"end":0}]}"#;

/// The same, but the last node may stay away for 3.
pub(crate) const OPTIONAL: &str = r#"{"format":1,"nodes":3,"matrices":[[[0,5,9],[5,0,4],[9,4,0]]],
"vehicles":[{"start":0,"end":0}],"groups":[{"nodes":[2],"penalty":3}]}"#;

/// The same with a pair of both visits.
pub(crate) const PAIR: &str = r#"{"format":1,"nodes":3,"matrices":[[[0,5,9],[5,0,4],[9,4,0]]],
"vehicles":[{"start":0,"end":0}],"pairs":[{"pickup":1,"delivery":2}]}"#;

/// Two pairs that may stay away, and a vehicle that delivers last in first out.
pub(crate) const LIFO: &str =
    r#"{"format":1,"nodes":5,"matrices":[[[0,1,1,1,1],[1,0,1,1,1],[1,1,0,1,1],[1,1,1,0,1],
[1,1,1,1,0]]],"vehicles":[{"start":0,"end":0,"policy":"lifo"}],"groups":[{"nodes":[1,2,3,4],"penalty":1,"max":4}],
"pairs":[{"pickup":1,"delivery":2},{"pickup":3,"delivery":4}]}"#;

/// Two visits, 5 from one another, no waiting, and a single forbidden cumul at node 2, between two runs.
pub(crate) const GAP: &str = r#"{"format":1,"nodes":3,"matrices":[[[0,5,5],[5,0,5],[5,5,0]]],
"vehicles":[{"start":0,"end":0}],"groups":[{"nodes":[2],"penalty":1}],
"dimensions":[{"name":"time","evaluators":[{"matrix":0}],"capacity":100,"slack_max":0,"fix_start":true,
"nodes":[{"node":2,"forbidden":[[10,10]]}]}]}"#;

/// Four visits, each 10 from the others, that may stay away. Node 1 has a window, node 2 a later one, and node 4 a late
/// one. Node 3 has five forbidden intervals, so that its set is kept beyond what is held in place. Node 4 is for the
/// first vehicle alone.
pub(crate) const WINDOWS: &str =
    r#"{"format":1,"nodes":5,"matrices":[[[0,10,10,10,10],[10,0,10,10,10],[10,10,0,10,10],
[10,10,10,0,10],[10,10,10,10,0]]],"vehicles":[{"start":0,"end":0},{"start":0,"end":0}],
"groups":[{"nodes":[1,2,3,4],"penalty":1,"max":4}],
"dimensions":[{"name":"time","evaluators":[{"matrix":0}],"capacity":100,"slack_max":100,
"nodes":[{"node":1,"window":[10,20]},{"node":2,"window":[20,30]},
{"node":3,"forbidden":[[0,24],[26,34],[36,44],[46,54],[56,64]]},{"node":4,"window":[90,95]}]}],
"allowed":[{"node":4,"vehicles":[0]}]}"#;

/// Two visits, 10 from one another, that may stay away. The first vehicle has two breaks, the second none.
pub(crate) const BREAKS: &str =
    r#"{"format":1,"nodes":3,"matrices":[[[0,10,10],[10,0,10],[10,10,0]]],
"vehicles":[{"start":0,"end":0},{"start":0,"end":0}],"groups":[{"nodes":[1,2],"penalty":1,"max":2}],
"dimensions":[{"name":"time","evaluators":[{"matrix":0}],"capacity":60,"slack_max":30,"fix_start":true,
"breaks":[{"vehicle":0,"breaks":[{"from":5,"to":12,"duration":5},{"from":40,"to":41,"duration":5}]}],
"nodes":[{"node":1,"window":[0,15]}]}]}"#;

/// Three visits that may stay away, of which the vehicle has room for two.
pub(crate) const LOAD: &str =
    r#"{"format":1,"nodes":4,"matrices":[[[0,5,5,5],[5,0,5,5],[5,5,0,5],[5,5,5,0]]],
"vehicles":[{"start":0,"end":0}],"groups":[{"nodes":[1,2,3],"penalty":1,"max":3}],
"dimensions":[{"name":"load","evaluators":[{"values":[0,1,1,1]}],"capacity":2,"slack_max":0,"fix_start":true}]}"#;

/// Twenty visits, each 5 from the others, and a time without rows.
pub(crate) const TWENTY: &str = r#"{"format":1,"nodes":21,"matrices":[[
[0,5,5,5,5,5,5,5,5,5,5,5,5,5,5,5,5,5,5,5,5],[5,0,5,5,5,5,5,5,5,5,5,5,5,5,5,5,5,5,5,5,5],
[5,5,0,5,5,5,5,5,5,5,5,5,5,5,5,5,5,5,5,5,5],[5,5,5,0,5,5,5,5,5,5,5,5,5,5,5,5,5,5,5,5,5],
[5,5,5,5,0,5,5,5,5,5,5,5,5,5,5,5,5,5,5,5,5],[5,5,5,5,5,0,5,5,5,5,5,5,5,5,5,5,5,5,5,5,5],
[5,5,5,5,5,5,0,5,5,5,5,5,5,5,5,5,5,5,5,5,5],[5,5,5,5,5,5,5,0,5,5,5,5,5,5,5,5,5,5,5,5,5],
[5,5,5,5,5,5,5,5,0,5,5,5,5,5,5,5,5,5,5,5,5],[5,5,5,5,5,5,5,5,5,0,5,5,5,5,5,5,5,5,5,5,5],
[5,5,5,5,5,5,5,5,5,5,0,5,5,5,5,5,5,5,5,5,5],[5,5,5,5,5,5,5,5,5,5,5,0,5,5,5,5,5,5,5,5,5],
[5,5,5,5,5,5,5,5,5,5,5,5,0,5,5,5,5,5,5,5,5],[5,5,5,5,5,5,5,5,5,5,5,5,5,0,5,5,5,5,5,5,5],
[5,5,5,5,5,5,5,5,5,5,5,5,5,5,0,5,5,5,5,5,5],[5,5,5,5,5,5,5,5,5,5,5,5,5,5,5,0,5,5,5,5,5],
[5,5,5,5,5,5,5,5,5,5,5,5,5,5,5,5,0,5,5,5,5],[5,5,5,5,5,5,5,5,5,5,5,5,5,5,5,5,5,0,5,5,5],
[5,5,5,5,5,5,5,5,5,5,5,5,5,5,5,5,5,5,0,5,5],[5,5,5,5,5,5,5,5,5,5,5,5,5,5,5,5,5,5,5,0,5],
[5,5,5,5,5,5,5,5,5,5,5,5,5,5,5,5,5,5,5,5,0]
]],"vehicles":[{"start":0,"end":0}],
"dimensions":[{"name":"time","evaluators":[{"matrix":0}],"capacity":68719476736,"slack_max":0,"fix_start":true}]}"#;

/// Two vehicles that cost something, a visit that may stay away, a soft upper bound, and both kinds of spans.
pub(crate) const PAID: &str = r#"{"format":1,"nodes":3,"matrices":[[[0,5,9],[5,0,4],[9,4,0]]],
"vehicles":[{"start":0,"end":0,"fixed":7},{"start":0,"end":0,"fixed":11}],"groups":[{"nodes":[2],"penalty":3}],
"dimensions":[{"name":"time","evaluators":[{"matrix":0}],"capacity":100,"slack_max":0,"fix_start":true,"span_cost":2,
"global_span_cost":10,"nodes":[{"node":2,"soft":{"bound":4,"coefficient":3}}]}]}"#;

/// Six visits, 10 from one to the next and 3 more backwards. No slack is longer than 5. Visits 3, 5 and 6 open late, 2
/// and 4 close early, and there are soft bounds at both ends and at three visits.
pub(crate) const LATE: &str =
    r#"{"format":1,"nodes":7,"matrices":[[[0,10,20,30,40,50,60],[13,0,10,20,30,40,50],
[23,13,0,10,20,30,40],[33,23,13,0,10,20,30],[43,33,23,13,0,10,20],[53,43,33,23,13,0,10],[63,53,43,33,23,13,0]]],
"vehicles":[{"start":0,"end":0},{"start":0,"end":0},{"start":0,"end":0}],
"groups":[{"nodes":[3],"penalty":5},{"nodes":[5],"penalty":7},{"nodes":[6],"penalty":9}],
"dimensions":[{"name":"time","evaluators":[{"matrix":0}],"capacity":1000,"slack_max":5,"span_cost":2,
"global_span_cost":3,"starts":[{"vehicle":0,"soft":{"bound":60,"coefficient":4}}],
"nodes":[{"node":1,"soft":{"bound":20,"coefficient":3}},{"node":2,"window":[0,220]},{"node":3,"window":[100,210]},
{"node":4,"window":[0,250],"soft":{"bound":125,"coefficient":2}},{"node":5,"window":[150,300]},
{"node":6,"window":[400,450],"soft":{"bound":401,"coefficient":6}}],
"ends":[{"vehicle":0,"soft":{"bound":180,"coefficient":1}}]}]}"#;

/// The same day, but the first two vehicles choose tight schedules.
pub(crate) const LATE_TIGHT: &str =
    r#"{"format":2,"nodes":7,"matrices":[[[0,10,20,30,40,50,60],[13,0,10,20,30,40,50],
[23,13,0,10,20,30,40],[33,23,13,0,10,20,30],[43,33,23,13,0,10,20],[53,43,33,23,13,0,10],[63,53,43,33,23,13,0]]],
"vehicles":[{"start":0,"end":0,"schedule":"tight"},{"start":0,"end":0,"schedule":"tight"},{"start":0,"end":0}],
"groups":[{"nodes":[3],"penalty":5},{"nodes":[5],"penalty":7},{"nodes":[6],"penalty":9}],
"dimensions":[{"name":"time","evaluators":[{"matrix":0}],"capacity":1000,"slack_max":5,"span_cost":2,
"global_span_cost":3,"starts":[{"vehicle":0,"soft":{"bound":60,"coefficient":4}}],
"nodes":[{"node":1,"soft":{"bound":20,"coefficient":3}},{"node":2,"window":[0,220]},{"node":3,"window":[100,210]},
{"node":4,"window":[0,250],"soft":{"bound":125,"coefficient":2}},{"node":5,"window":[150,300]},
{"node":6,"window":[400,450],"soft":{"bound":401,"coefficient":6}}],
"ends":[{"vehicle":0,"soft":{"bound":180,"coefficient":1}}]}]}"#;

/// The same day of tight vehicles, but soft bounds cost nothing.
pub(crate) const LATE_TIGHT_FREE: &str =
    r#"{"format":2,"nodes":7,"matrices":[[[0,10,20,30,40,50,60],[13,0,10,20,30,40,50],
[23,13,0,10,20,30,40],[33,23,13,0,10,20,30],[43,33,23,13,0,10,20],[53,43,33,23,13,0,10],[63,53,43,33,23,13,0]]],
"vehicles":[{"start":0,"end":0,"schedule":"tight"},{"start":0,"end":0,"schedule":"tight"},{"start":0,"end":0}],
"groups":[{"nodes":[3],"penalty":5},{"nodes":[5],"penalty":7},{"nodes":[6],"penalty":9}],
"dimensions":[{"name":"time","evaluators":[{"matrix":0}],"capacity":1000,"slack_max":5,"span_cost":2,
"global_span_cost":3,"nodes":[{"node":2,"window":[0,220]},{"node":3,"window":[100,210]},{"node":4,"window":[0,250]},
{"node":5,"window":[150,300]},{"node":6,"window":[400,450]}]}]}"#;

/// Three nodes all 5 apart, two vehicles, and a cost of the time from the first start to the last end.
pub(crate) const TWO_VANS: &str = r#"{"format":1,"nodes":3,"matrices":[[[0,5,5],[5,0,5],[5,5,0]]],
"vehicles":[{"start":0,"end":0},{"start":0,"end":0}],
"dimensions":[{"name":"time","evaluators":[{"matrix":0}],"capacity":100,"slack_max":0,"fix_start":true,
"global_span_cost":10}]}"#;

/// Four nodes in a square.
pub(crate) const SQUARE: &str =
    r#"{"format":1,"nodes":4,"matrices":[[[0,7,5,5],[7,0,5,5],[5,5,0,7],[5,5,7,0]]],
"vehicles":[{"start":0,"end":0}]}"#;

/// The same square, but the vehicle costs something, so that nothing is known of runs of moves.
pub(crate) const PAID_SQUARE: &str =
    r#"{"format":1,"nodes":4,"matrices":[[[0,7,5,5],[7,0,5,5],[5,5,0,7],[5,5,7,0]]],
"vehicles":[{"start":0,"end":0,"fixed":1}]}"#;

/// The same square, but spans cost something and arcs nothing.
pub(crate) const SPAN_SQUARE: &str =
    r#"{"format":1,"nodes":4,"matrices":[[[0,0,0,0],[0,0,0,0],[0,0,0,0],[0,0,0,0]],
[[0,7,5,5],[7,0,5,5],[5,5,0,7],[5,5,7,0]]],"vehicles":[{"start":0,"end":0}],
"dimensions":[{"name":"time","evaluators":[{"matrix":1}],"capacity":100,"slack_max":9,"span_cost":2,
"global_span_cost":3}]}"#;

/// A day of two vehicles, one last in first out and with a break. There are windows, a forbidden interval and a load.
/// Of two pairs one may stay away; another visit is optional, and one is for a vehicle alone. All parts of the cost are
/// there.
pub(crate) const DAY: &str =
    r#"{"format":1,"nodes":8,"matrices":[[[0,9,7,8,4,6,9,5],[9,0,5,4,8,7,3,6],
[7,5,0,9,3,8,6,4],
[8,4,9,0,7,5,4,9],[4,8,3,7,0,6,8,5],[6,7,8,5,6,0,9,3],[9,3,6,4,8,9,0,7],[5,6,4,9,5,3,7,0]]],
"vehicles":[{"start":0,"end":0,"fixed":20},{"start":0,"end":0,"policy":"lifo","fixed":5}],
"dimensions":[{"name":"time","evaluators":[{"matrix":0}],"slack_max":30,"capacity":200,"span_cost":1,
"global_span_cost":2,"nodes":[{"node":1,"window":[10,60]},{"node":3,"forbidden":[[20,25]]},
{"node":5,"soft":{"bound":12,"coefficient":4}}],
"breaks":[{"vehicle":1,"breaks":[{"from":15,"to":30,"duration":5}]}]},
{"name":"load","evaluators":[{"values":[0,3,-2,2,4,-4,1,2]}],"slack_max":0,"capacity":[7,9],"fix_start":true}],
"groups":[{"nodes":[2,1],"penalty":40,"max":2},{"nodes":[7],"penalty":30}],
"pairs":[{"pickup":1,"delivery":2},{"pickup":4,"delivery":5}],"allowed":[{"node":6,"vehicles":[0]}]}"#;

/// Two visits, and costs that depend on the direction.
pub(crate) const ONE_WAY: &str = r#"{"format":1,"nodes":3,"matrices":[[[0,1,2],[1,0,9],[9,1,0]]],
"vehicles":[{"start":0,"end":0}]}"#;

/// A pair, and two vehicles of which the first is the cheaper one.
pub(crate) const TWO_FARES: &str =
    r#"{"format":1,"nodes":3,"matrices":[[[0,9,9],[9,0,9],[9,9,0]],[[0,1,1],[1,0,1],[1,1,0]]],
"vehicles":[{"start":0,"end":0,"costs":1},{"start":0,"end":0,"costs":0}],"pairs":[{"pickup":1,"delivery":2}]}"#;

/// Three visits without waiting, each at a time of its own: node 3, then node 1, then node 2. Node 2 may also come
/// first, and then keeps the others out.
pub(crate) const ON_TIME: &str =
    r#"{"format":1,"nodes":4,"matrices":[[[0,1,1,3],[9,0,4,9],[1,9,0,9],[9,3,1,0]]],
"vehicles":[{"start":0,"end":0}],
"dimensions":[{"name":"time","evaluators":[{"matrix":0}],"capacity":100,"slack_max":0,"fix_start":true,
"nodes":[{"node":1,"window":[6,6]},{"node":2,"window":[1,10],"forbidden":[[2,9]]},{"node":3,"window":[3,3]}]}]}"#;

/// Three visits whose order is turned in part, from 26 to 18 in two ways, and from there to 14.
pub(crate) const SHORTCUT: &str =
    r#"{"format":1,"nodes":4,"matrices":[[[0,9,4,3],[4,0,7,5],[1,6,0,7],[3,3,5,0]]],
"vehicles":[{"start":0,"end":0}],"search":{"neighbourhoods":["two_opt"]}}"#;

/// Three visits whose order is turned in part, from 12 only by way of 14 to 11.
pub(crate) const DETOUR: &str =
    r#"{"format":1,"nodes":4,"matrices":[[[0,5,8,1],[5,0,1,8],[3,2,0,2],[4,6,6,0]]],
"vehicles":[{"start":0,"end":0}],"search":{"neighbourhoods":["two_opt"]}}"#;
