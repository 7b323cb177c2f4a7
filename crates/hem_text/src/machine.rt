//! One step: the next token.

ghost use Rattle.std.specs.Prelude.{◌≡◌, ◌<◌, ◌≤◌, length, drop, find, Some, OnOk, IfErr, IfSome, IsTrue};
ghost use Rattle.std.specs.List.{list_any, list_all};
ghost use Rattle.std.specs.Option.{option_map};
ghost use Rattle.hem_text.specs.Grammars.{state, heads, can_pass, comes_again, way_into, way_at, full, next, standing, is_used, is_plain, lost_cause};
ghost use Rattle.hem_text.specs.Refused.{IsRefused};
ghost use Rattle.hem_text.specs.declared.machine.Refusal.TheVariants.{OutOfMemory as Memory};

use crate::language::Language;
use crate::stack::Stack;
use crate::{Cause, Lexeme, Stands, Symbol};
use hem_base::OutOfMemory;

/// Why a token wasn't read.
#[derive(Clone, Copy, Debug, PartialEq, Eq)]
pub enum Refusal {
    Fault(Cause),
    OutOfMemory,
}

impl From<OutOfMemory> for Refusal {
    ghost from_gives = { λ _ e. e ≡ Memory };

    fn from(_e: OutOfMemory) -> Refusal {
        Refusal::OutOfMemory
    }
}

/// The way that a token takes, and how many symbols it leaves behind.
#[derive(Clone, Copy)]
struct Found<T> {
    terminal: T,
    past: usize,
}

fn can_pass<T: Copy, I: Copy>(symbol: Symbol<T, I>) -> bool
    ensures { result ≡ can_pass symbol }
{
    match symbol {
        Symbol::One(_) | Symbol::Item(_) => false,
        Symbol::Maybe(_) | Symbol::Many(_) => true,
    }
}

fn comes_again<T: Copy, I: Copy>(symbol: Symbol<T, I>) -> bool
    ensures { result ≡ comes_again symbol }
{
    match symbol {
        Symbol::One(_) | Symbol::Item(_) | Symbol::Maybe(_) => false,
        Symbol::Many(_) => true,
    }
}

fn first_of<L: Language>(
    env: &L,
    terminals: &[L::Terminal],
    token: &Lexeme<'_>,
) -> Option<L::Terminal>
    ensures { result ≡ find (λ x. L.grammar.spells env.now x token.now) terminals.now }
{
    terminals.iter().copied().find(|x| env.spells(*x, token))
}

/// The token of the symbol that this one is.
fn head_of<L: Language>(
    env: &L,
    symbol: Symbol<L::Terminal, L::Item>,
    token: &Lexeme<'_>,
) -> Option<L::Terminal>
    ensures { result ≡ find (λ x. L.grammar.spells env.now x token.now) (heads L.grammar symbol) }
{
    match symbol {
        Symbol::One(x) => { if env.spells(x, token) { Some(x) } else { None } }
        Symbol::Item(i) | Symbol::Maybe(i) | Symbol::Many(i) => {
            first_of(env, L::firsts(i), token)
        }
    }
}

fn find_way<L: Language>(
    env: &L,
    stack: &Stack<L::Terminal, L::Item>,
    token: &Lexeme<'_>,
) -> Option<Found<L::Terminal>>
    ensures way { option_map (λ f. way_into L.grammar (drop f.past stack.now) f.terminal) result
        ≡ way_at L.grammar (state env.now stack.now) token.now }
    ensures within { IfSome result (λ f. f.past ≤ length stack.now) }
    ensures spelled { IfSome result (λ f. IsTrue (L.grammar.spells env.now f.terminal token.now)) }
{
    for depth in 0..stack.len() {
        let symbol = stack.at(depth);
        if let Some(terminal) = head_of(env, symbol, token) {
            let past = if comes_again(symbol) {
                depth
            } else {
                depth + 1
            };
            return Some(Found { terminal, past });
        }
        if !can_pass(symbol) {
            return None;
        }
    }
    None
}

fn is_used(stands: Stands) -> bool
    ensures { result ≡ is_used stands }
{
    match stands {
        Stands::Used => true,
        Stands::Reserved | Stands::Other => false,
    }
}

fn is_plain(stands: Stands) -> bool
    ensures { result ≡ is_plain stands }
{
    match stands {
        Stands::Used | Stands::Reserved => true,
        Stands::Other => false,
    }
}

fn any_used<L: Language>(terminals: &[L::Terminal]) -> bool
    ensures { result ≡ list_any (λ x. is_used (L.grammar.stands x)) terminals.now }
{
    terminals.iter().any(|x| is_used(L::stands(*x)))
}

fn all_plain<L: Language>(terminals: &[L::Terminal]) -> bool
    ensures { result ≡ list_all (λ x. is_plain (L.grammar.stands x)) terminals.now }
{
    terminals.iter().all(|x| is_plain(L::stands(*x)))
}

fn is_used_in<L: Language>(symbol: Symbol<L::Terminal, L::Item>) -> bool
    ensures { result ≡ list_any (λ x. is_used (L.grammar.stands x)) (heads L.grammar symbol) }
{
    match symbol {
        Symbol::One(x) => is_used(L::stands(x)),
        Symbol::Item(i) | Symbol::Maybe(i) | Symbol::Many(i) => any_used::<L>(L::firsts(i)),
    }
}

fn is_plain_in<L: Language>(symbol: Symbol<L::Terminal, L::Item>) -> bool
    ensures { result ≡ list_all (λ x. is_plain (L.grammar.stands x)) (heads L.grammar symbol) }
{
    match symbol {
        Symbol::One(x) => is_plain(L::stands(x)),
        Symbol::Item(i) | Symbol::Maybe(i) | Symbol::Many(i) => all_plain::<L>(L::firsts(i)),
    }
}

fn some_used<L: Language>(stack: &Stack<L::Terminal, L::Item>) -> bool
    ensures { result ≡ list_any (λ x. is_used (L.grammar.stands x)) (standing L.grammar stack.now) }
{
    for depth in 0..stack.len() {
        let symbol = stack.at(depth);
        if is_used_in::<L>(symbol) {
            return true;
        }
        if !can_pass(symbol) {
            return false;
        }
    }
    false
}

fn only_plain<L: Language>(stack: &Stack<L::Terminal, L::Item>) -> bool
    ensures { result ≡ list_all (λ x. is_plain (L.grammar.stands x)) (standing L.grammar stack.now) }
{
    for depth in 0..stack.len() {
        let symbol = stack.at(depth);
        if !is_plain_in::<L>(symbol) {
            return false;
        }
        if !can_pass(symbol) {
            return true;
        }
    }
    true
}

/// Why a token that no way takes can't stand.
fn cause_of<L: Language>(stack: &Stack<L::Terminal, L::Item>, token: &Lexeme<'_>) -> Cause
    ensures { result ≡ lost_cause L.grammar stack.now token.now }
{
    if token.is_name() && some_used::<L>(stack) && only_plain::<L>(stack) {
        Cause::Unknown
    } else {
        Cause::Expected
    }
}

/// Reads a token, or says why it can't stand.
pub fn step<L: Language>(
    env: &mut L,
    stack: &mut Stack<L::Terminal, L::Item>,
    token: &Lexeme<'_>,
) -> Result<(), Refusal>
    ensures ok { OnOk result (next full L.grammar (state env.old stack.old) token.now ≡ Some (state env.new stack.new)) }
    ensures refused { IfErr result (λ e. IsRefused L.grammar (state env.old stack.old) token.now e) }
{
    match find_way(env, stack, token) {
        Some(found) => {
            let terminal = found.terminal;
            if !env.is_fresh(terminal, token) {
                return Err(Refusal::Fault(Cause::Repeated));
            }
            if !env.is_within(terminal, token) {
                return Err(Refusal::Fault(Cause::TooMany));
            }
            stack.pass(found.past);
            stack.put(L::follows(terminal))?;
            env.read(terminal, token)?;
            Ok(())
        }
        None => Err(Refusal::Fault(cause_of::<L>(stack, token))),
    }
}
