//! The symbol of an address by a scan.
ghost use Rattle.std.specs.Prelude.{◌≡◌, ◌==◌, None, max, if◌then◌else◌};
ghost use Rattle.blz_symbols.specs.SymbolRule.{answers, covering, is_candidate, larger};

use crate::question::Question;
use blz_image::symbols::{Symbol, Symbols};

fn is_candidate(symbol: &Symbol, addr: u64) -> bool
    ensures { result ≡ is_candidate addr symbol.now }
{
    symbol.is_typed() && symbol.value <= addr
}

fn answers(symbol: &Symbol, question: &Question, greatest: u64) -> bool
    ensures { result ≡ answers question.now greatest symbol.now }
{
    is_candidate(symbol, question.addr)
        && symbol.value == greatest
        && question.may_be_answered(symbol)
}

/// The greatest value of the candidates so far, and of one more symbol.
fn greater(greatest: u64, symbol: &Symbol, addr: u64) -> u64
    ensures { result
        ≡ (if is_candidate addr symbol.now then max greatest symbol.now.value else greatest) }
{
    if is_candidate(symbol, addr) {
        greatest.max(symbol.value)
    } else {
        greatest
    }
}

/// The best symbol so far: none where the greatest value has risen.
fn still_best(best: Option<Symbol>, before: u64, greatest: u64) -> Option<Symbol>
    ensures { result ≡ (if greatest == before then best else None) }
{
    if greatest == before { best } else { None }
}

/// The larger, or the earlier where they are alike.
fn larger(best: Option<Symbol>, symbol: Symbol) -> Option<Symbol>
    ensures { result ≡ larger best symbol }
{
    match best {
        Some(best) if best.size >= symbol.size => Some(best),
        _ => Some(symbol),
    }
}

/// The symbol that answers a question, by a scan.
pub fn covering(symbols: &Symbols<'_>, question: &Question) -> Option<Symbol>
    ensures { result ≡ covering question.now symbols.now }
{
    let mut greatest = 0;
    let mut best: Option<Symbol> = None;
    for i in 0..symbols.len() {
        let symbol = symbols.at(i);
        let before = greatest;
        greatest = greater(before, &symbol, question.addr);
        best = still_best(best, before, greatest);
        if answers(&symbol, question, greatest) {
            best = larger(best, symbol);
        }
    }
    best
}
