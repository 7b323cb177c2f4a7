//! Playing modules.

ghost use Rattle.std.specs.Prelude.{◌≡◌, slice_get, option_copied, IfOk, OnErr, OnOk};
ghost use Rattle.hem_module.specs.States.{stepped};
ghost use Rattle.hem_module.specs.Turns.{can_play, first_rule, IsPlayed, IsReached};

use crate::modules::Modules;
use crate::rules::ModRule;
use crate::state::ModState;
use crate::step::{can, make};
use hem_base::OutOfMemory;
use std::alloc::Global;

/// How a play ended.
#[derive(Clone, Copy, Debug, PartialEq, Eq)]
pub struct Played {
    /// How many firings were made.
    pub fired: u32,
    /// Whether no rule that isn't spontaneous can fire any more.
    pub stuck: bool,
}

/// Whether a rule isn't spontaneous and can fire.
fn can_play(rule: &ModRule, s: &ModState) -> bool
    ensures { result ≡ can_play s.now rule.now }
{
    !rule.spontaneous && can(rule, s)
}

/// The first rule that isn't spontaneous and can fire.
fn first_rule<'a>(m: &'a Modules, s: &ModState) -> Option<&'a ModRule>
    ensures { option_copied result ≡ first_rule m.now s.now }
{
    m.rules().iter().find(|rule| can_play(rule, s))
}

/// Plays modules: at each turn the first rule in text order fires that isn't spontaneous and can fire, at most so many
/// times. Where memory is wanted the state is the one to which the firings so far led.
pub fn play(alloc: Global, m: &Modules, s: &mut ModState, most: u32) -> Result<Played, OutOfMemory>
    ensures ok { IfOk result (IsPlayed m.now s.old most s.new) }
    ensures err { OnErr result (IsReached m.now s.old most s.new) }
{
    for fired in 0..most {
        match first_rule(m, s) {
            Some(rule) => make(alloc, rule, s)?,
            None => return Ok(Played { fired, stuck: true }),
        }
    }
    let stuck = first_rule(m, s).is_none();
    Ok(Played { fired: most, stuck })
}
