//! What a check finds: the rules in their order, and the spot at which one is broken.

ghost use Rattle.std.specs.Prelude.{◌≡◌, ◌<◌, ◌^◌};
ghost use Rattle.vr_check.specs.Check.{rule_word};
ghost use Rattle.vr_check.specs.Findings.{broken_at, spot_of_none, spot_of_vehicle};
ghost use Rattle.vr_check.specs.Findings as findings;

/// What a check finds.
#[derive(Clone, Copy)]
pub enum Finding {
    /// No rule is broken, and this is the printed cost.
    Meets {
        cost: i64,
    },
    /// The first rule that is broken, with its vehicle and place, as `Rule` says; a number that does not apply is -1.
    Broken {
        rule: Rule,
        vehicle: i64,
        place: i64,
    },
}

/// The rules of a printed solution, in the order in which they are asked. Each says what vehicle and place mean if it
/// is broken. Places in the nodes of a route count its start, so the first visit is at place 1.
#[derive(Clone, Copy)]
pub enum Rule {
    /// The tree has the fields, kinds, words and lengths of a solution's text. It has nodes of the model, and the
    /// vehicles and dimensions of the model in their order. Neither vehicle nor place.
    Shape,
    /// A used route begins at its start and ends at its end, with visits between them. The vehicle, and the place in
    /// its nodes.
    Ends,
    /// No visit comes twice. The vehicle and the place of the later one.
    Once,
    /// The inactive visits, and no other nodes, are listed as dropped, ascending. Neither vehicle nor place.
    Dropped,
    /// Each visit in no group is active. The place is the least node that is not.
    Required,
    /// Each group has no more active nodes than it may have, and exactly as many without a penalty. The place is the
    /// number of the group.
    Group,
    /// Both nodes of a pair are active or neither, in one list, the pickup first. The place is the number of the pair.
    Pair,
    /// The vehicle's policy on its pairs holds. The vehicle alone.
    Policy,
    /// Each visit allows its vehicle. The vehicle, and the place in its nodes.
    Allowed,
    /// Each stop allows its cumul. The vehicle and the stop, in the first dimension that fails, which is not reported.
    Cumul,
    /// Each slack is what its cumuls leave, and within its bounds. The vehicle and the arc; the dimension is not
    /// reported either.
    Slack,
    /// Breaks are in range, in order and in place, and fit into the slacks. The vehicle, and the number of the
    /// dimension.
    Break,
    /// Each part of the cost is its value at the printed cumuls. The place is the number of the part, from 0, in byte
    /// order of the names.
    Parts,
    /// The cost is the sum of the parts. Neither vehicle nor place.
    Cost,
    /// The cost is at most that of the first solution. Neither vehicle nor place.
    FirstCost,
    /// Tries and solutions are within the limits of the model. Neither vehicle nor place.
    Limits,
}

/// At which spot a rule is broken, as `Finding::Broken` says it: a number that does not apply is -1.
#[derive(Clone, Copy)]
pub struct Spot {
    pub vehicle: i64,
    pub place: i64,
}

impl Spot {
    /// A place of a vehicle.
    pub fn at(vehicle: usize, place: usize) -> Spot
        requires vehicle { vehicle < 2 ^ 62 }
        requires place { place < 2 ^ 62 }
        ensures { result ≡ findings.spot vehicle place }
    {
        Spot {
            vehicle: vehicle as i64,
            place: place as i64,
        }
    }

    /// A place of no vehicle.
    pub(crate) fn of_none(place: usize) -> Spot
        requires { place < 2 ^ 62 }
        ensures { result ≡ spot_of_none place }
    {
        Spot {
            vehicle: -1,
            place: place as i64,
        }
    }

    /// A vehicle and no place.
    pub(crate) fn of_vehicle(vehicle: usize) -> Spot
        requires { vehicle < 2 ^ 62 }
        ensures { result ≡ spot_of_vehicle vehicle }
    {
        Spot {
            vehicle: vehicle as i64,
            place: -1,
        }
    }

    /// No vehicle and no place.
    pub(crate) fn nowhere() -> Spot
        ensures { result ≡ findings.nowhere }
    {
        Spot {
            vehicle: -1,
            place: -1,
        }
    }
}

impl Rule {
    /// The word of the rule: its name in lower case, its words joined by `_`.
    pub fn word(self) -> &'static str
        ensures { result.now ≡ rule_word self }
    {
        match self {
            Rule::Shape => "shape",
            Rule::Ends => "ends",
            Rule::Once => "once",
            Rule::Dropped => "dropped",
            Rule::Required => "required",
            Rule::Group => "group",
            Rule::Pair => "pair",
            Rule::Policy => "policy",
            Rule::Allowed => "allowed",
            Rule::Cumul => "cumul",
            Rule::Slack => "slack",
            Rule::Break => "break",
            Rule::Parts => "parts",
            Rule::Cost => "cost",
            Rule::FirstCost => "first_cost",
            Rule::Limits => "limits",
        }
    }

    /// The finding that this rule is broken at a spot.
    pub(crate) fn broken(self, spot: Spot) -> Finding
        ensures { result ≡ broken_at self spot }
    {
        Finding::Broken {
            rule: self,
            vehicle: spot.vehicle,
            place: spot.place,
        }
    }
}
