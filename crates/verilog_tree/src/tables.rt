//! Names looked up by their hash.
ghost use Rattle.std.specs.Prelude.{◌≡◌, ℕ, List, [], map, IfOk, OnOk};
ghost use Rattle.std.specs.Option.{option_map};
ghost use Rattle.verilog_tree.specs.Plain.{plain_module};
ghost use Rattle.verilog_tree.specs.Names.{lookup, width_of, declarations};
ghost use Rattle.verilog_tree.specs.Seen.{declaration};
ghost use Rattle.verilog_tree.specs.inner.Tables.{with_all};
ghost use Rattle.verilog_tree.specs.Tables.{with_declared, with_name};
ghost use Rattle.bist_text.specs.ReservedWords.{is_among};

use crate::names::{Declared, Kind, all_declared};
use crate::tree::{Module, Name};
use bist_bits::NoMemory;
use indexmap::{IndexMap, IndexSet};
use std::alloc::Global;
use std::marker::Model;

// What a name is declared as.
#[derive(Clone, Copy)]
struct Form {
    kind: Kind,
    width: u8,
}

/// The first declarations of names, in order.
#[derive(Drop)]
pub struct Declarations {
    forms: IndexMap<Name, Form>,
}

impl Model for Declarations {
    ghost use Rattle.std.specs.Prelude.{List};
    ghost use Rattle.verilog_tree.specs.Names.{Declaration};

    ghost Value = { List Declaration };

    ghost use Rattle.verilog_tree.specs.Tables.{declarations_of};

    ghost view = { declarations_of };
}

impl Declarations {
    /// No declarations. It takes no memory yet.
    pub fn new(alloc: Global) -> Declarations
        ensures { result ≡ [] }
    {
        Declarations {
            forms: IndexMap::new(alloc),
        }
    }

    /// What a name is declared as.
    pub fn get(&self, name: &Name) -> Option<Declared>
        ensures { option_map declaration result ≡ lookup self.now name.now.bytes }
    {
        match self.forms.get(name) {
            Some(form) => Some(Declared {
                name: *name,
                kind: form.kind,
                width: form.width,
            }),
            None => None,
        }
    }

    /// The width that a name is declared with, or 0.
    pub fn width(&self, name: &Name) -> u8
        ensures { result ≡ width_of self.now name.now.bytes }
    {
        match self.get(name) {
            Some(declared) => declared.width,
            None => 0,
        }
    }

    /// Declares a name, if it isn't declared yet.
    pub fn add(&mut self, declared: Declared) -> Result<(), NoMemory>
        ensures { OnOk result (self.new ≡ with_declared self.old (declaration declared)) }
    {
        if self.forms.contains_key(&declared.name) {
            return Ok(());
        }
        let form = Form {
            kind: declared.kind,
            width: declared.width,
        };
        match self.forms.insert(declared.name, form) {
            Ok(_) => Ok(()),
            Err(_) => Err(NoMemory),
        }
    }
}

/// These declarations by name: the first of each.
pub(crate) fn by_name(alloc: Global, declared: &[Declared]) -> Result<Declarations, NoMemory>
    ensures { IfOk result (λ all. all ≡ with_all [] (map declaration declared.now)) }
{
    let mut all = Declarations::new(alloc);
    for next in declared {
        all.add(*next)?;
    }
    Ok(all)
}

/// What a module declares, by name.
pub fn all_declarations(alloc: Global, module: &Module) -> Result<Declarations, NoMemory>
    ensures { IfOk result (λ all. (n : List ℕ)
        → lookup all n ≡ lookup (declarations (plain_module «module».now).ports (plain_module «module».now).items) n) }
{
    let declared = all_declared(alloc, module)?;
    by_name(alloc, &declared)
}

/// Names, each once, in the order in which they came.
#[derive(Drop)]
pub struct NameSet {
    names: IndexSet<Name>,
}

impl Model for NameSet {
    ghost use Rattle.std.specs.Prelude.{ℕ, List};

    ghost Value = { List (List ℕ) };

    ghost use Rattle.verilog_tree.specs.Tables.{names_of};

    ghost view = { names_of };
}

impl NameSet {
    /// No names. It takes no memory yet.
    pub fn new(alloc: Global) -> NameSet
        ensures { result ≡ [] }
    {
        NameSet {
            names: IndexSet::new(alloc),
        }
    }

    /// Whether the name is among them.
    pub fn contains(&self, name: &Name) -> bool
        ensures { result ≡ is_among name.now.bytes self.now }
    {
        self.names.contains(name)
    }

    /// Adds a name, if it isn't there yet.
    pub fn add(&mut self, name: Name) -> Result<(), NoMemory>
        ensures { OnOk result (self.new ≡ with_name self.old name.bytes) }
    {
        match self.names.insert(name) {
            Ok(_) => Ok(()),
            Err(_) => Err(NoMemory),
        }
    }
}
