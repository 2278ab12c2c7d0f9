ghost use Rattle.std.specs.Prelude.{◌≤◌, OnOk, OnErr};
ghost use Rattle.std.specs.Io.KnownBytes.{Appends};
ghost use Rattle.io_edges.specs.Counts.{Rose};
ghost use Rattle.io_edges.specs.Stores.{AppendsFront};

use io_edges::{Failed, Line, Sink, write_all};

/// Writes one line.
pub fn write_line<K: Sink>(line: &Line, out: &mut K) -> Result<(), Failed>
    ensures ok { OnOk result (Appends (K.written out.old) (K.written out.new) line.now) }
    ensures faults { K.faults out.old ≤ K.faults out.new }
    ensures failed { OnErr result (Rose (K.faults out.old) (K.faults out.new)) }
    ensures front { AppendsFront (K.written out.old) (K.written out.new) line.now }
{
    write_all(out, line.bytes())
}
