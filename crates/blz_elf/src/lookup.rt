//! The answer of the symbol rule.
ghost use Rattle.std.specs.Option.{option_map};
ghost use Rattle.blz_model.specs.Part.{Exactly};
ghost use Rattle.blz_symbols.specs.Tables.{TableFits, table_view};
ghost use Rattle.blz_symbols.specs.SymbolRule.{named, answer_in};
ghost use Rattle.blz_elf.specs.AnswerView.{answer_view};

use crate::answer::{Answer, InlinedFns, ResolvedSym};
use blz_error::Result;
use blz_image::symbols::Symbol;
use blz_image::text::name;
use blz_model::SrcLang;
use blz_symbols::question::Question;
use blz_symbols::table::Table;
use std::alloc::Global;

/// A symbol as an answer.
#[tactic(auto, unfolding(blz_symbols::specs::SymbolRule::named))]
fn named<'b>(
    alloc: Global,
    module_name: Option<&'b str>,
    image: &'b [u8],
    table: &Table,
    symbol: &Symbol,
) -> Result<Answer<'b>>
    requires { TableFits image.now table.now }
    ensures { Exactly answer_view result (named (option_map (λ m. m.now) module_name.entry)
        (table_view image.now table.now) symbol.now) }
{
    let name = name(table.strings_in(image), symbol.name_offset)?;
    Ok(Answer::Sym(ResolvedSym {
        name,
        module: module_name,
        addr: symbol.value,
        size: if symbol.size == 0 {
            None
        } else {
            Some(symbol.size)
        },
        lang: SrcLang::Unknown,
        code_info: None,
        inlined: InlinedFns::empty(alloc),
    }))
}

/// The answer of a table to a question, where it has one.
#[tactic(auto, unfolding(blz_symbols::specs::SymbolRule::answer_in))]
pub fn answer_in<'b>(
    alloc: Global,
    module_name: Option<&'b str>,
    image: &'b [u8],
    table: &Table,
    question: &Question,
) -> Result<Option<Answer<'b>>>
    requires { TableFits image.now table.now }
    ensures { Exactly (option_map answer_view) result
        (answer_in (option_map (λ m. m.now) module_name.entry)
        (table_view image.now table.now) question.now) }
{
    match table.covering(image, question) {
        Some(symbol) => match named(alloc, module_name, image, table, &symbol) {
            Ok(answer) => Ok(Some(answer)),
            Err(e) => Err(e),
        },
        None => Ok(None),
    }
}
