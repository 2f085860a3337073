// How many of some coordinates or indices a trial takes: as many as it asks for, as far as there are.
ghost use Rattle.replay_bounds.specs.Counts.{Counts};

#[tactic(auto, using(crate::proofs::Counted::counted))]
pub fn as_far_as<T>(many: &[T], k: usize) -> usize
    ensures { Counts result many.now }
{
    k.min(many.len())
}
