// The laws of images with internal snapshots, as contracts.
#![tactic(auto)]

ghost use Rattle.model.specs.Invariant.{Clean};
ghost use Rattle.model.specs.Law.{Law, Lasting, Witness};

// After any list of allowed calls from a clean state the image is clean, and shows what a machine shows that keeps a whole copy for each snapshot.
pub fn law_stands()
    ensures { Law Clean }
{}

// Each snapshot at the end was there at the start, or was taken in the run and shows what the live image showed then.
pub fn snapshots_last()
    ensures { Lasting Clean }
{}

// There is a shape that keeps its laws, with a clean state and a history that is allowed.
pub fn law_applies()
    ensures { Witness Clean }
{}
