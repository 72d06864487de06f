//! What a load is to its readers. The function here does nothing: its contract is the law.

ghost use Rattle.load_gen.specs.Inputs.{LoadsArrive};

/// Law: the capture of a port is read as the frames that were sent there, each with its moment, and then as an input that
/// ends by its end.
pub fn loads_arrive()
    ensures { LoadsArrive }
{}
