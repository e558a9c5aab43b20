//! The private memory of a thread.

use elf_loader::load;
use paged_memory::{Abort, PageImage, Pages, WriteStop};
use sm_types::Access;
use std::alloc::Global;
use std::process::Abort as Stops;
use std::test::Fail;

/// A program file with `movz x0, #3`, `movz x8, #0` and `svc #0` at 0x400000, and a page of data at 0x410000
/// that may be accessed in every way, which begins with the bytes 1 to 4.
pub const FILE: [u8; 192] = [
    0x7F, 0x45, 0x4C, 0x46, 2, 1, 1, 0, 0, 0, 0, 0, 0, 0, 0, 0, // 64 bits, low byte first
    2, 0, 183, 0, 1, 0, 0, 0, 0, 0, 0x40, 0, 0, 0, 0, 0, // an executable, its entry
    64, 0, 0, 0, 0, 0, 0, 0, 0, 0, 0, 0, 0, 0, 0, 0, // its program headers at 64
    0, 0, 0, 0, 64, 0, 56, 0, 2, 0, 64, 0, 0, 0, 0, 0, // two of 56 bytes
    1, 0, 0, 0, 5, 0, 0, 0, 176, 0, 0, 0, 0, 0, 0, 0, // a load, read and execute
    0, 0, 0x40, 0, 0, 0, 0, 0, 0, 0, 0x40, 0, 0, 0, 0, 0, // its address
    12, 0, 0, 0, 0, 0, 0, 0, 12, 0, 0, 0, 0, 0, 0, 0, // its size
    0, 16, 0, 0, 0, 0, 0, 0, // its alignment
    1, 0, 0, 0, 7, 0, 0, 0, 188, 0, 0, 0, 0, 0, 0, 0, // a load, read, write and execute
    0, 0, 0x41, 0, 0, 0, 0, 0, 0, 0, 0x41, 0, 0, 0, 0, 0, // its address
    4, 0, 0, 0, 0, 0, 0, 0, 0, 16, 0, 0, 0, 0, 0, 0, // its sizes in the file and in memory
    0, 16, 0, 0, 0, 0, 0, 0, // its alignment
    0x60, 0x00, 0x80, 0xd2, 0x08, 0x00, 0x80, 0xd2, 0x01, 0x00, 0x00, 0xd4, // the code
    1, 2, 3, 4, // the data
];

/// The address of the page of data.
pub const DATA: u64 = 0x410000;

/// The pages of a thread that starts from a copy of the file's image.
pub fn pages(rt: &impl Stops, alloc: Global) -> Pages {
    let image = load(alloc, &FILE).ok().expect(rt, "an accepted file");
    let image = image.copy(alloc).ok().expect(rt, "memory");
    Pages::from_image(alloc, &image).ok().expect(rt, "memory")
}

#[test]
fn words_are_fetched_from_executable_pages(rt: HostRuntime) {
    let pages = pages(&rt, rt.alloc());
    for (pc, word) in [
        (0x400000, Some(0xd2800060)),
        (0x400008, Some(0xd4000001)),
        (0x400001, Some(0x08d28000)),
        (0x40000c, Some(0)),
        (0x400ffe, None),
        (0x3ffffe, None),
        (0x401000, None),
        (0x7dfffffff000, None),
        (0xffffffffffffffff, None),
    ] {
        assert_eq!(rt; pages.fetch(pc), word, "at {pc:#x}");
    }
}

#[test]
fn pages_are_shown_in_order(rt: HostRuntime) {
    let pages = pages(&rt, rt.alloc());
    assert_eq!(rt; pages.page_count(), 66);
    assert!(rt; pages.page(66).is_none());
    for (place, address, flags, bytes) in [
        (0, 0x400000, 5, &FILE[176..188]),
        (1, 0x410000, 7, &FILE[188..]),
        (65, 0x7dfffffff000, 6, &[]),
    ] {
        let page = pages.page(place).expect(&rt, "a page");
        assert_eq!(rt; (page.address, page.flags), (address, flags));
        assert_eq!(rt; page.bytes.len(), 4096);
        assert!(rt; page.bytes.starts_with(bytes));
        assert!(rt; page.bytes.iter().skip(bytes.len()).all(|b| *b == 0));
    }
}

#[test]
fn accesses_are_checked_up_to_the_first_byte_that_fails(rt: HostRuntime) {
    let pages = pages(&rt, rt.alloc());
    for (address, length, access, first) in [
        (0x410000, 4096, Access::Read, None),
        (0x410fff, 1, Access::Write, None),
        (0x999999, 0, Access::Write, None),
        (0x7dfffffc0000, 0x40000, Access::Write, None),
        (0x400ffe, 4, Access::Read, Some(0x401000)),
        (0x410ff8, 16, Access::Write, Some(0x411000)),
        (0x410000, u64::MAX, Access::Read, Some(0x411000)),
        (0x40ffff, 2, Access::Read, Some(0x40ffff)),
        (
            0xffffffffffffffff,
            1,
            Access::Write,
            Some(0xffffffffffffffff),
        ),
    ] {
        let found = pages.check(address, length, access).err();
        assert_eq!(rt; found.map(|abort| abort.address), first, "at {address:#x}");
        assert!(rt;
            found.is_none_or(|abort| abort.access == access),
            "at {address:#x}"
        );
    }
}

/// The four bytes from an address on.
fn four_at(rt: &impl Stops, pages: &Pages, address: u64) -> [u8; 4] {
    let mut four = [9; 4];
    assert!(rt; pages.read(address, &mut four).is_ok());
    four
}

#[test]
fn bytes_are_read_up_to_the_first_that_may_not_be(rt: HostRuntime) {
    let pages = pages(&rt, rt.alloc());
    assert!(rt; four_at(&rt, &pages, 0x400004) == [0x08, 0x00, 0x80, 0xd2]);
    let stop = pages.read(0x400ffe, &mut [9; 4]).err();
    assert!(rt;
        stop.is_some_and(|abort| abort.address == 0x401000 && abort.access == Access::Read)
    );
    let mut many = [9; 5000];
    assert!(rt; pages.read(0x7dfffffc0000, &mut many).is_ok());
    assert!(rt; many[4999] == 0);
}

#[test]
fn bytes_that_are_written_are_read(rt: HostRuntime) {
    let mut pages = pages(&rt, rt.alloc());
    assert!(rt; pages.own(0x410000, 4096).is_ok());
    assert!(rt; pages.write(0x410002, &[8, 9]).is_ok());
    assert!(rt; pages.write(0x7dfffffc0ffe, &[1, 2, 3]).is_ok());
    assert!(rt; pages.write(0x411000, &[]).is_ok());
    assert!(rt; four_at(&rt, &pages, 0x410000) == [1, 2, 8, 9]);
    assert!(rt; four_at(&rt, &pages, 0x7dfffffc0ffe) == [1, 2, 3, 0]);
    let bytes = pages.bytes_within(0x410000, 4).expect(&rt, "a page");
    assert!(rt; bytes == [1, 2, 8, 9].as_slice());
    assert!(rt; pages.bytes_within(0x411000, 4).is_none());
}

#[test]
fn a_write_that_may_not_be_made_changes_nothing(rt: HostRuntime) {
    let mut pages = pages(&rt, rt.alloc());
    let stop = WriteStop::Abort(Abort {
        address: 0x411000,
        access: Access::Write,
    });
    assert!(rt; pages.write(0x410ff8, &[9; 16]) == Err(stop));
    assert!(rt; four_at(&rt, &pages, 0x410ff8) == [0; 4]);
    assert!(rt; four_at(&rt, &pages, 0x410ffc) == [0; 4]);
}

#[test]
fn a_write_owns_the_shared_pages_that_it_touches(rt: HostRuntime) {
    let mut pages = pages(&rt, rt.alloc());
    assert_eq!(rt; pages.own_pages(), 0);
    assert!(rt; pages.write(0x7dfffffc0010, &[1]).is_ok());
    assert_eq!(rt; pages.own_pages(), 1);
    assert!(rt; pages.write(0x7dfffffc0ff8, &[9; 16]).is_ok());
    assert_eq!(rt; pages.own_pages(), 2);
    assert!(rt; pages.write(0x410ff8, &[9; 16]).is_err());
    assert_eq!(rt; pages.own_pages(), 2);
    assert!(rt; pages.own(0x3fffff, 3).is_ok());
    assert_eq!(rt; pages.own_pages(), 3);
    assert!(rt; four_at(&rt, &pages, 0x7dfffffc1006) == [9, 9, 0, 0]);
    assert!(rt; four_at(&rt, &pages, 0x7dfffffc2006) == [0; 4]);
}

#[test]
fn pages_of_a_list_stand_at_both_ends(rt: HostRuntime) -> Result<(), Fail> {
    let alloc = rt.alloc();
    let mut list = Vec::new(alloc);
    list.push(PageImage {
        address: 0,
        flags: 6,
        bytes: vec![in alloc; 3u8; 4096]?,
    })?;
    list.push(PageImage {
        address: 0xfffffffffffff000,
        flags: 7,
        bytes: vec![in alloc; 5u8; 4096]?,
    })?;
    let mut pages = Pages::from_pages(alloc, &list).ok().ok_or("memory")?;
    assert_eq!(rt; pages.page_count(), 2);
    let mut four = [0; 4];
    assert!(rt; pages.read(0xfffffffffffffffe, &mut four).is_ok());
    assert!(rt; four == [5, 5, 3, 3]);
    assert!(rt; pages.write(0xfffffffffffffffe, &[9; 4]).is_ok());
    assert!(rt; pages.read(0xfffffffffffffffd, &mut four).is_ok());
    assert!(rt; four == [5, 9, 9, 9]);
    assert_eq!(rt; pages.fetch(0xfffffffffffffff0), Some(0x05050505));
    assert_eq!(rt; pages.fetch(0xfffffffffffffffe), None);
    Ok(())
}
