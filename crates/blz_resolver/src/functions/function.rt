//! A function of a unit, as it is answered.
ghost use Rattle.std.specs.Prelude.{◌≡◌, ◌<◌, true, length, IfErr, IfOk};
ghost use Rattle.std.specs.Option.{option_map};
ghost use Rattle.blz_error.specs.declared.kind.ErrorKind.TheVariants.{OutOfMemory};
ghost use Rattle.blz_model.specs.Part.{Gives, Exactly};
ghost use Rattle.blz_elf.specs.AnswerView.{resolved_view};
ghost use Rattle.blz_units.specs.UnitSites.{call_name};
ghost use Rattle.blz_index.specs.UnitsWarm.{units_table, functions_kept, lines_kept};
ghost use Rattle.blz_resolver.specs.AddressAnswers.{utf8_text, function_numbered, begin_of, size_of, symbol_of};
ghost use Rattle.blz_resolver.specs.BookAnswers.{symbol_read};
ghost use Rattle.blz_resolver.specs.Reading.{book_of, Reads, Keeps};

use crate::answers::book_reader::BookReader;
use crate::fault::invalid;
use blz_bytes::Orders;
use blz_elf::{InlinedFns, ResolvedSym};
use blz_entry::{Span, StrPlace, Texts};
use blz_error::Result;
use blz_index::{Function, Units};
use blz_model::SrcLang;
use std::alloc::Global;

/// Where a function begins, 0 where its bounds are not known.
pub(crate) fn begin_of(bounds: Option<Span>) -> u64
    ensures { result ≡ begin_of bounds }
{
    match bounds {
        Some(span) => span.begin,
        None => 0,
    }
}

/// The size of a function, none where its bounds are not known or reversed.
pub(crate) fn size_of(bounds: Option<Span>) -> Option<u64>
    ensures { result ≡ size_of bounds }
{
    match bounds {
        Some(span) if span.begin <= span.end => Some(span.end - span.begin),
        _ => None,
    }
}

// Bytes that have to be UTF-8.
#[tactic(auto, unfolding(crate::specs::AddressAnswers::utf8_text))]
fn utf8_text(bytes: &[u8]) -> Result<&str>
    ensures { Exactly (λ t. t.now) result (utf8_text bytes.now) }
{
    match str::from_utf8(bytes) {
        Ok(text) => Ok(text),
        Err(_) => Err(invalid("the name of a function is not UTF-8")),
    }
}

/// The text of a name, nothing where there is none. InvalidDwarf exactly where it is not UTF-8.
#[tactic(auto, unfolding(crate::specs::AddressAnswers::utf8_text))]
pub(crate) fn name_text<'b>(texts: &Texts<'b>, place: Option<StrPlace>) -> Result<&'b str>
    ensures { Exactly (λ n. n.now) result (call_name texts.now place) }
{
    let Some(place) = place else {
        return Ok("");
    };
    utf8_text(texts.get(place))
}

/// A function of a module with its name and its language, without its places.
pub(crate) fn symbol_of<'b>(
    alloc: Global,
    module_name: Option<&'b str>,
    name: &'b str,
    function: &Function,
    lang: SrcLang,
) -> ResolvedSym<'b>
    ensures { resolved_view result ≡
        symbol_of (option_map (λ m. m.now) module_name.entry) name.now function.now lang }
{
    ResolvedSym {
        name,
        module: module_name,
        addr: begin_of(function.bounds),
        size: size_of(function.bounds),
        lang,
        code_info: None,
        inlined: InlinedFns::empty(alloc),
    }
}

impl<'b> BookReader<'_, 'b> {
    /// The function of a number of a unit whose functions are kept.
    #[tactic(auto, using(crate::proofs::UnitsKept::numbered_kept), unfolding(crate::specs::AddressAnswers::function_numbered))]
    pub fn function_numbered(&self, units: &Units, at: (usize, usize)) -> Result<Function>
        requires reads { Reads self.now units.now }
        requires kept { functions_kept units.now at.0 ≡ true }
        ensures { Exactly (λ f. f) result (function_numbered (book_of self.now units.now) at) }
    {
        match units.function(at.0, at.1) {
            Some(function) => Ok(*function),
            None => Err(invalid("a unit has no function of this number")),
        }
    }

    /// Reads the lines of a unit, as far as they can be read.
    pub fn fill_lines<O: Orders>(
        &self,
        alloc: Global,
        orders: &mut O,
        units: &mut Units,
        unit: usize,
    ) -> Result<()>
        requires reads { Reads self.now units.old }
        requires there { unit < length (units_table units.old).kept }
        ensures keeps { Keeps self.now units.old units.new }
        ensures filled { IfOk result (λ _. lines_kept units.new unit ≡ true) }
        ensures want { IfErr result (λ e. e.kind ≡ OutOfMemory) }
    {
        units.fill_lines(alloc, orders, &self.dwarf, unit)
    }

    /// A function as it is answered, without its places.
    #[tactic(auto, unfolding(crate::specs::AddressAnswers::function_symbol))]
    pub fn function_symbol(
        &self,
        alloc: Global,
        units: &mut Units,
        at: (usize, usize),
    ) -> Result<ResolvedSym<'b>>
        requires reads { Reads self.now units.old }
        requires kept { functions_kept units.old at.0 ≡ true }
        ensures value { Gives resolved_view result (symbol_read self.now units.old at) }
        ensures keeps { Keeps self.now units.old units.new }
    {
        let function = self.function_numbered(units, at)?;
        let name = name_text(&self.dwarf.texts, function.name)?;
        let lang = units.language(alloc, &self.dwarf, at.0)?;
        let module_name = self.bundle.module;
        Ok(symbol_of(alloc, module_name, name, &function, lang))
    }
}
