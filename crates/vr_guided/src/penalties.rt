//! How often each arc was penalised.

ghost use Rattle.std.specs.Prelude.{◌≡◌, ◌<◌, ◌≤◌, ◌+◌, ◌*◌, ℕ, false, length, IfOk};
ghost use Rattle.vr_guided.specs.Counts.{AtMost, counted};
ghost use Rattle.vr_guided.specs.Worths.{increased};
ghost use Rattle.vr_model.specs.search.GuidedSearches.{no_penalties};

use std::alloc::Global;
use std::marker::Model;
use vr_model::NoMemory;

/// How often each arc was penalised, whichever vehicle took it.
#[derive(Drop)]
pub struct Penalties {
    nodes: u32,
    counts: Vec<u32>,
    // if this is false, no arc was penalised
    any: bool,
}

impl Model for Penalties {
    ghost use Rattle.vr_guided.specs.Counts.{AreCounts, Counts};

    ghost Value = { Counts };

    ghost view = { λ p. record { nodes = p.nodes; counts = p.counts.items } };

    ghost invariant = { λ p. AreCounts p.nodes p.counts.items p.any };
}

impl Penalties {
    /// No arc is penalised.
    pub fn new(alloc: Global, nodes: u32) -> Result<Penalties, NoMemory>
        requires { nodes ≤ 1000 }
        ensures none { IfOk result (λ fresh. counted fresh ≡ no_penalties) }
        ensures nodes { IfOk result (λ fresh. fresh.nodes ≡ nodes) }
    {
        let cells = nodes as usize * nodes as usize;
        let counts = vec![in alloc; 0; cells]?;
        Ok(Penalties {
            nodes,
            counts,
            any: false,
        })
    }

    /// Whether an arc may have been penalised: if not, none was.
    #[inline]
    pub fn is_any(&self) -> bool
        ensures { result ≡ false → counted self.now ≡ no_penalties }
    {
        self.any
    }

    /// How often the arc from one node to another was penalised.
    #[inline]
    pub fn at(&self, origin: u32, target: u32) -> u32
        requires origin { origin < self.now.nodes }
        requires target { target < self.now.nodes }
        ensures { result ≡ counted self.now origin target }
    {
        self.counts[self.cell(origin, target)]
    }

    /// One more on the arc from one node to another.
    #[inline]
    pub fn increase(&mut self, origin: u32, target: u32)
        requires origin { origin < self.old.nodes }
        requires target { target < self.old.nodes }
        requires room { AtMost 2000000000 (counted self.old) }
        ensures nodes { self.new.nodes ≡ self.old.nodes }
        ensures increased { (vehicle : ℕ) → counted self.new
            ≡ increased (counted self.old) (record { vehicle = vehicle; origin = origin; target = target }) }
    {
        let cell = self.cell(origin, target);
        self.any = true;
        self.counts[cell] += 1;
    }

    // The place of the count of an arc.
    #[inline]
    fn cell(&self, origin: u32, target: u32) -> usize
        requires origin { origin < self.now.nodes }
        requires target { target < self.now.nodes }
        ensures value { result ≡ origin * self.now.nodes + target }
        ensures within { result < length self.now.counts }
    {
        origin as usize * self.nodes as usize + target as usize
    }
}
