// What every script starts with.
ghost use Rattle.script_spec.specs.Command.{script};
ghost use Rattle.script_spec.specs.Walk.{start};
ghost use Rattle.write_bytes.specs.Writers.{Writes};

use write_bytes::writer::Writer;

// Writes the declaration of the Option type as a line.
pub fn put_start(w: &mut Writer<'_>)
    ensures { Writes w.old w.new (script start.commands) }
{
    w.put(b"(declare-datatype Option (par (X) (\n  (none)\n  (some (val X)))))\n");
}
