//! What a lawful state promises: a law over the definitions alone.
ghost use Rattle.hk_core.specs.Promise.{LawfulKeepsPromises};

/// A lawful state stands for the plain heap after its history. Each object that can be reached, or that a call goes
/// through, shows the cells of its birth, in words of its own; the lists of free numbers name nothing that is in use;
/// nothing black refers to anything white; the ranges tile the words that are reserved; words that nobody uses are 0; from
/// the sweep on nothing white can be reached; and versions have a bound.
pub fn lawful_states_promise()
    ensures promises { LawfulKeepsPromises }
{}
