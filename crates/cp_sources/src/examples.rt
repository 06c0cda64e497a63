ghost use Rattle.cp_sources.specs.Examples.{ArraysHold};

/// Does nothing when it runs. Its contract states worked examples of the definitions, texts with the trees that they are, and the
/// check proves each of them by computation.
pub fn worked_examples()
    ensures arrays { ArraysHold }
{}
