ghost use Rattle.cp_path.specs.Encoding.{NoneBeginsAnother};

/// States a law of stored places, and does nothing when it runs: the stored bytes of no place begin those of another.
pub fn laws()
    ensures stored { NoneBeginsAnother }
{}
