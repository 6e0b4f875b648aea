//! Actions.
ghost use Rattle.std.specs.Prelude.{◌≡◌};
ghost use Rattle.pm_words.specs.Readings as spec;

/// What the program can be asked to do.
#[derive(Clone, Copy)]
pub(crate) enum Action {
    Check,
    Order,
    Sim,
}

/// The action of this name.
#[tactic(auto, unfolding(crate::specs::Readings::action_of))]
pub(crate) fn action_of(word: &str) -> Option<Action>
    ensures { result ≡ spec.action_of word.now }
{
    if word == "check" {
        Some(Action::Check)
    } else if word == "order" {
        Some(Action::Order)
    } else if word == "sim" {
        Some(Action::Sim)
    } else {
        None
    }
}
