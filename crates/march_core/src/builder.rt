ghost use Rattle.std.specs.Prelude.{◌≡◌, ◌<◌, ◌≤◌, ◌+◌, ◌-◌, ◌++◌, ◌∷◌, [], ◌↔◌, IsOk, IfOk, IfErr, OnOk, OnErr, IsTrue, length};
ghost use Rattle.march_core.specs.March.{pause, sweep, IsMarch, all_ops};
ghost use Rattle.march_core.specs.Building.{with_op, last_ops, ends_in_sweep, IsFilled, IsRefused};
ghost use Rattle.march_core.specs.inner.Building.{some_empty};

use crate::element::Element;
use crate::fault::MarchFault;
use crate::march::March;
use crate::operation::{Op, Order};
use crate::reads::check_reads;
use arrayvec::ArrayVec;
use std::marker::Model;

/// A march under construction, seen as the list of its elements so far.
#[derive(Drop)]
pub struct MarchBuilder {
    elements: ArrayVec<Element, 64>,
    total: usize,
}

impl Model for MarchBuilder {
    ghost use Rattle.std.specs.Prelude.{List};
    ghost use Rattle.march_core.specs.March.{MarchElement};
    ghost use Rattle.march_core.specs.Building.{IsBuilt};

    ghost Value = { List MarchElement };

    ghost view = { λ b. b.elements.items };

    ghost invariant = { λ b. IsBuilt b.elements.items b.total };
}

impl MarchBuilder {
    ghost use Rattle.march_core.specs.declared.fault.MarchFault.{MarchFault};

    /// A builder without elements.
    pub fn new() -> Self
        ensures { result ≡ [] }
    {
        MarchBuilder {
            elements: ArrayVec::new(),
            total: 0,
        }
    }

    /// Begins an element. M4 comes exactly where 64 elements are held.
    pub fn element(&mut self, order: Order) -> Result<(), MarchFault>
        ensures ok { OnOk result (self.new ≡ self.old ++ sweep order [] ∷ []) }
        ensures variant { IsOk result ↔ (length self.old < 64) }
        ensures fault { IfErr result (λ fault. fault ≡ MarchFault.TooManyElements) }
        ensures err { OnErr result (self.new ≡ self.old) }
    {
        if self.elements.is_full() {
            return Err(MarchFault::TooManyElements);
        }
        self.elements.push(Element::new(order));
        Ok(())
    }

    /// Adds a pause. M4 comes exactly where 64 elements are held.
    pub fn pause(&mut self) -> Result<(), MarchFault>
        ensures ok { OnOk result (self.new ≡ self.old ++ pause ∷ []) }
        ensures variant { IsOk result ↔ (length self.old < 64) }
        ensures fault { IfErr result (λ fault. fault ≡ MarchFault.TooManyElements) }
        ensures err { OnErr result (self.new ≡ self.old) }
    {
        if self.elements.is_full() {
            return Err(MarchFault::TooManyElements);
        }
        self.elements.push(Element::pause());
        Ok(())
    }

    /// Adds an operation to the last element, which `element` began. M5 comes exactly where that element has
    /// 16 operations, else M6 exactly where 256 are held in all.
    pub fn op(&mut self, op: Op) -> Result<(), MarchFault>
        requires { IsTrue (ends_in_sweep self.old) }
        ensures ok { OnOk result (self.new ≡ with_op self.old op) }
        ensures variant { IsOk result ↔ ((length (last_ops self.old) < 16) × (length (all_ops self.old) < 256)) }
        ensures too_many { length (last_ops self.old) ≡ 16 → result ≡ Err (MarchFault.TooManyOps (length self.old - 1)) }
        ensures too_many_in_all { length (last_ops self.old) < 16 → length (all_ops self.old) ≡ 256 → result ≡ Err MarchFault.TooManyInAll }
        ensures err { OnErr result (self.new ≡ self.old) }
    {
        if last_len(self.elements.as_slice()) == 16 {
            let element = self.elements.len() - 1;
            return Err(MarchFault::TooManyOps { element });
        }
        if self.total == 256 {
            return Err(MarchFault::TooManyInAll);
        }
        push_to_last(self.elements.as_mut_slice(), op);
        self.total += 1;
        Ok(())
    }

    /// The march, exactly where some element isn't a pause, each of these has operations, and each read expects what
    /// was written last. Else M3, or M7 or M8 at the first read that doesn't.
    pub fn finish(self) -> Result<March, MarchFault>
        ensures variant { IsOk result ↔ IsMarch self }
        ensures value { IfOk result (λ march. march ≡ self) }
        ensures refusal { (fault : MarchFault) → (result ≡ Err fault) ↔ IsRefused self fault }
    {
        if !is_filled(self.elements.as_slice(), self.total) {
            return Err(MarchFault::Empty);
        }
        if let Err(fault) = check_reads(self.elements.as_slice()) {
            return Err(fault);
        }
        Ok(March::from_elements(self.elements, self.total))
    }
}

/// Whether some element isn't a pause, and each of these has operations.
fn is_filled(elements: &[Element], total: usize) -> bool
    requires { total ≡ length (all_ops elements.now) }
    ensures { IsTrue result ↔ IsFilled elements.now }
{
    // where nothing has an operation all elements are pauses, or some element is empty
    total != 0 && !has_empty_element(elements)
}

/// Whether some element other than a pause has no operation.
fn has_empty_element(elements: &[Element]) -> bool
    ensures { result ≡ some_empty elements.now }
{
    for element in elements {
        if !element.is_pause() && element.ops().is_empty() {
            return true;
        }
    }
    false
}

/// How many operations the last element has.
fn last_len(elements: &[Element]) -> usize
    requires { 0 < length elements.now }
    ensures { result ≡ length (last_ops elements.now) }
{
    let last = &elements[elements.len() - 1];
    last.ops().len()
}

fn push_to_last(elements: &mut [Element], op: Op)
    requires sweeps { IsTrue (ends_in_sweep elements.old) }
    requires room { length (last_ops elements.old) < 16 }
    ensures { elements.new ≡ with_op elements.old op }
{
    let last = elements.len() - 1;
    let element = &mut elements[last];
    element.push(op);
}
