//! Stores of the elements of a vector.
ghost use Rattle.std.specs.Prelude.{◌≡◌, ℕ, ◌+◌, ◌*◌, ◌/◌, ◌%◌, ◌^◌, ◌<◌, ◌≤◌, true, None, Some, List, []};
ghost use Rattle.std.specs.Prelude.{◌∷◌, if◌then◌else◌};
ghost use Rattle.std.specs.Prelude.{length, flat_map};
ghost use Rattle.std.specs.Prelude.{OnOk, IsTrue, is_ok};
ghost use Rattle.std.specs.List.{find};
ghost use Rattle.paged_memory.specs.Memory.{first_without};
ghost use Rattle.paged_memory.specs.PageTable.{AreOwned, OwnsAlso, KeepsOwned};
ghost use Rattle.mem_access.specs.Checks.{lacks};
ghost use Rattle.mem_access.specs.Transfer.{written};
ghost use Rattle.mem_access.specs.Runs.{with_bytes};
ghost use Rattle.vector_elements.specs.Elements.{is_active};
ghost use Rattle.vector_elements.specs.Numbers.{bytes_in};
ghost use Rattle.sve_access.specs.Elements.{element_run, low_bytes, element_addresses, element_bytes};
ghost use Rattle.sve_access.specs.Owned.{OwnsElements};

use crate::elements::Elements;
use paged_memory::Pages;
use sm_types::Memory;

/// Makes the pages of element `i` owned, if it is active, and no others.
#[inline]
fn own_element(elements: &Elements, i: usize, pages: &mut Pages) -> Result<(), Memory>
    requires within { bytes_in elements.now.element * i < 8 * length elements.now.pg.now }
    requires few { length elements.now.pg.now ≤ 32 }
    requires small { i ≤ 256 }
    ensures also { OnOk result (OwnsAlso pages.old pages.new
        (flat_map (element_run elements.now.start elements.now.memory)
        (if is_active (bytes_in elements.now.element) elements.now.pg.now i then i ∷ [] else []))) }
    ensures memory { pages.new.memory ≡ pages.old.memory }
    ensures room { (is_active (bytes_in elements.now.element) elements.now.pg.now i ≡ true →
        AreOwned pages.old ((elements.now.start + i * bytes_in elements.now.memory) % 2 ^ 64)
        (bytes_in elements.now.memory)) → IsTrue (is_ok result) }
    ensures kept { KeepsOwned pages.old pages.new }
{
    if elements.is_active(i) {
        pages.own(elements.address(i), elements.memory.bytes() as u64)
    } else {
        Ok(())
    }
}

/// Makes the pages of the active elements owned, and no others; after `Err` some of them may be.
pub fn own_elements(elements: &Elements, pages: &mut Pages) -> Result<(), Memory>
    requires { length elements.now.pg.now ≤ 32 }
    ensures also { OnOk result (OwnsAlso pages.old pages.new
        (element_addresses elements.now.start elements.now.memory elements.now.element elements.now.pg.now)) }
    ensures owned { OnOk result (OwnsElements elements.now.start elements.now.memory elements.now.element
        elements.now.pg.now pages.new) }
    ensures memory { pages.new.memory ≡ pages.old.memory }
    ensures room { OwnsElements elements.now.start elements.now.memory elements.now.element
        elements.now.pg.now pages.old → IsTrue (is_ok result) }
    ensures kept { KeepsOwned pages.old pages.new }
{
    for i in 0..elements.count() {
        own_element(elements, i, pages)?;
    }
    Ok(())
}

/// Writes bytes to owned pages that can be written.
#[inline]
fn write_owned(pages: &mut Pages, address: u64, bytes: &[u8])
    requires permitted { first_without 2 pages.old.memory address (length bytes.now) ≡ None }
    requires owned { AreOwned pages.old address (length bytes.now) }
    ensures memory { pages.new.memory ≡ with_bytes pages.old.memory address bytes.now }
    ensures owned { OwnsAlso pages.old pages.new [] }
{
    match pages.write(address, bytes) {
        Ok(()) => {}
        Err(_) => unreachable!(),
    }
}

/// Stores the low bytes of element `i`, if it is active, to owned pages that can be written.
#[inline]
fn write_element(elements: &Elements, i: usize, z: &[u8], pages: &mut Pages)
    requires narrow { bytes_in elements.now.memory ≤ bytes_in elements.now.element }
    requires within { bytes_in elements.now.element * i + bytes_in elements.now.element ≤ length z.now }
    requires bits { length z.now ≡ 8 * length elements.now.pg.now }
    requires few { length elements.now.pg.now ≤ 32 }
    requires small { i ≤ 256 }
    requires permitted { is_active (bytes_in elements.now.element) elements.now.pg.now i ≡ true →
        first_without 2 pages.old.memory ((elements.now.start + i * bytes_in elements.now.memory) % 2 ^ 64)
        (bytes_in elements.now.memory) ≡ None }
    requires owned { is_active (bytes_in elements.now.element) elements.now.pg.now i ≡ true →
        AreOwned pages.old ((elements.now.start + i * bytes_in elements.now.memory) % 2 ^ 64)
        (bytes_in elements.now.memory) }
    ensures memory { let active = is_active (bytes_in elements.now.element) elements.now.pg.now i in
        pages.new.memory ≡ written pages.old.memory
        (flat_map (element_run elements.now.start elements.now.memory) (if active then i ∷ [] else []))
        (Some (flat_map (low_bytes z.now elements.now.memory elements.now.element)
        (if active then i ∷ [] else []))) }
    ensures owned { OwnsAlso pages.old pages.new [] }
{
    if elements.is_active(i) {
        let first = elements.element.bytes() * i;
        write_owned(
            pages,
            elements.address(i),
            &z[first..first + elements.memory.bytes()],
        );
    }
}

/// Stores the low bytes of the active elements of a vector to owned pages that can be written.
pub fn write_elements(elements: &Elements, z: &[u8], pages: &mut Pages)
    requires narrow { bytes_in elements.now.memory ≤ bytes_in elements.now.element }
    requires small { length elements.now.pg.now ≤ 32 }
    requires bits { length z.now ≡ 8 * length elements.now.pg.now }
    requires permitted { find (lacks 2 pages.old.memory) (element_addresses elements.now.start
        elements.now.memory elements.now.element elements.now.pg.now) ≡ None }
    requires owned { OwnsElements elements.now.start elements.now.memory elements.now.element
        elements.now.pg.now pages.old }
    ensures memory { pages.new.memory ≡ written pages.old.memory
        (element_addresses elements.now.start elements.now.memory elements.now.element elements.now.pg.now)
        (Some (element_bytes z.now elements.now.memory elements.now.element elements.now.pg.now)) }
    ensures owned { OwnsAlso pages.old pages.new [] }
{
    for i in 0..elements.count() {
        write_element(elements, i, z, pages);
    }
}
