//! The traits of what gives bytes and what takes them.

ghost use Rattle.std.specs.Prelude.{◌≡◌, ◌≤◌, ◌<◌, List, ℕ, [], Option, length, take, Ok, IfOk, OnErr, OnOk};
ghost use Rattle.vr_io.specs.Edges.{Rose, Gave, EndsAtEnd, Took};

/// The device failed in this call.
#[derive(Clone, Copy, Debug, PartialEq, Eq)]
pub struct Failed;

/// Where bytes come from.
pub trait Source {
    /// The bytes still to come, if they are known.
    ghost left: { Self → Option (List ℕ) };

    /// How often the device has failed: a number that never falls. It may stay at 2^64 - 1, as `Rose` allows.
    ghost faults: { Self → ℕ };

    /// Puts some of the bytes to come at the front of `buf` and gives their number. Zero on a `buf` that is not empty
    /// is the end of input. `Failed` comes exactly if the device failed in this call. Of bytes that are known to come
    /// none is lost then.
    fn read(&mut self, buf: &mut [u8]) -> Result<usize, Failed>
        ensures bound { IfOk result (λ n. n ≤ length buf.new) }
        ensures gives { IfOk result (λ n. Gave (left self.old) (left self.new) (take n buf.new)) }
        ensures ends { IfOk result (λ n. EndsAtEnd (left self.old) (length buf.new) n) }
        ensures kept { OnErr result (left self.new ≡ left self.old) }
        ensures grows { faults self.old ≤ faults self.new }
        ensures quiet { OnOk result (faults self.new ≡ faults self.old) }
        ensures cause { OnErr result (Rose (faults self.old) (faults self.new)) };
}

/// Where bytes go to.
pub trait Sink {
    /// The bytes that were taken, if they are known. If they are not, they never will be.
    ghost written: { Self → Option (List ℕ) };

    /// How often the device has failed, as that of a source.
    ghost faults: { Self → ℕ };

    /// Takes some bytes of the front of `piece`, at least one if there is one, and gives their number. `Failed` comes
    /// exactly if the device failed in this call. A sink whose bytes are known has taken none then. Of another one the
    /// front of `piece` may have gone out.
    fn write(&mut self, piece: &[u8]) -> Result<usize, Failed>
        ensures bound { IfOk result (λ n. n ≤ length piece.now) }
        ensures some { IfOk result (λ n. 0 < length piece.now → 0 < n) }
        ensures empty { piece.now ≡ [] → result ≡ Ok 0 }
        ensures takes { IfOk result (λ n. Took (written self.old) (written self.new) (take n piece.now)) }
        ensures kept { OnErr result (written self.new ≡ written self.old) }
        ensures grows { faults self.old ≤ faults self.new }
        ensures quiet { OnOk result (faults self.new ≡ faults self.old) }
        ensures cause { OnErr result (Rose (faults self.old) (faults self.new)) };
}
