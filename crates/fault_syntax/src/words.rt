ghost use Rattle.std.specs.Prelude.{◌≡◌, map};
ghost use Rattle.bist_text.specs.Keywords.{word_of};
ghost use Rattle.fault_syntax.specs.Names.{class_text};
ghost use Rattle.fault_syntax.specs.inner.Names.{words_of};

use bist_text::Keyword;
use fault_core::Class;

/// An operation of a sense as it is written: `w`, `r` with a digit, or `t`, a pause.
#[derive(Clone, Copy)]
pub enum Operation {
    Write(bool),
    Read(bool),
    Pause,
}

/// A word of a list that stands for primitives.
#[derive(Clone, Copy)]
pub enum GroupName {
    OfClass(Class),
    One,
    Two,
    All,
    /// `dyn1`: the dynamic primitives of one cell.
    DynOne,
    /// `dyn2`: the dynamic primitives of two.
    DynTwo,
}

/// Which names a list may have.
#[derive(Clone, Copy)]
pub enum AllowedNames {
    /// Those of static primitives.
    Static,
    Every,
}

/// What is read: a primitive alone, or a line of a list with these names.
#[derive(Clone, Copy)]
pub(crate) enum Form {
    Single,
    Listed(AllowedNames),
}

/// The words of a list, those of static primitives first.
static WORDS: [Keyword<GroupName>; 19] = [
    Keyword("SF", GroupName::OfClass(Class::SF)),
    Keyword("TF", GroupName::OfClass(Class::TF)),
    Keyword("WDF", GroupName::OfClass(Class::WDF)),
    Keyword("RDF", GroupName::OfClass(Class::RDF)),
    Keyword("DRDF", GroupName::OfClass(Class::DRDF)),
    Keyword("IRF", GroupName::OfClass(Class::IRF)),
    Keyword("CFst", GroupName::OfClass(Class::CFst)),
    Keyword("CFds", GroupName::OfClass(Class::CFds)),
    Keyword("CFtr", GroupName::OfClass(Class::CFtr)),
    Keyword("CFwd", GroupName::OfClass(Class::CFwd)),
    Keyword("CFrd", GroupName::OfClass(Class::CFrd)),
    Keyword("CFdr", GroupName::OfClass(Class::CFdr)),
    Keyword("CFir", GroupName::OfClass(Class::CFir)),
    Keyword("DRF", GroupName::OfClass(Class::DRF)),
    Keyword("one", GroupName::One),
    Keyword("two", GroupName::Two),
    Keyword("all", GroupName::All),
    Keyword("dyn1", GroupName::DynOne),
    Keyword("dyn2", GroupName::DynTwo),
];

/// The words that may stand in a form.
pub(crate) fn words_of(form: Form) -> &'static [Keyword<GroupName>]
    ensures { map word_of result.now ≡ words_of form }
{
    match form {
        Form::Listed(AllowedNames::Every) => &WORDS,
        _ => &WORDS[..17],
    }
}

/// The name of a class, in lists and reports.
pub fn class_name(class: Class) -> &'static str
    ensures { result.now ≡ class_text class }
{
    match class {
        Class::SF => "SF",
        Class::TF => "TF",
        Class::WDF => "WDF",
        Class::RDF => "RDF",
        Class::DRDF => "DRDF",
        Class::IRF => "IRF",
        Class::CFst => "CFst",
        Class::CFds => "CFds",
        Class::CFtr => "CFtr",
        Class::CFwd => "CFwd",
        Class::CFrd => "CFrd",
        Class::CFdr => "CFdr",
        Class::CFir => "CFir",
        Class::DRF => "DRF",
    }
}
