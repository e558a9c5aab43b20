//! A source and its object: the bytes are those that the GNU assembler and linker give.

use asm_core::assemble;
use sm_types::Object;

/// The text at 0x400000 and the data at the next page.
const SOURCE: &[u8] = b"
.global _start
message: .byte 104, 105, 10
.align 2
_start: adr x0, message
 adrp x1, value
 ldr x2, pool
 cbz x2, done
 bl _start
 tbnz x3, #5, done
 b.ne _start
done: b done
pool: .quad value
 .word 1, 0xffffffff
.data
 .zero 3
 .byte 255
 .align 3
value: .quad message
 .quad 18446744073709551615
";

const TEXT: [u8; 52] = [
    0x68, 0x69, 0x0a, 0x00, 0xe0, 0xff, 0xff, 0x10, 0x01, 0x00, 0x00, 0xb0, 0xc2, 0x00, 0x00, 0x58,
    0x82, 0x00, 0x00, 0xb4, 0xfc, 0xff, 0xff, 0x97, 0x43, 0x00, 0x28, 0x37, 0x41, 0xff, 0xff, 0x54,
    0x00, 0x00, 0x00, 0x14, 0x08, 0x10, 0x40, 0x00, 0x00, 0x00, 0x00, 0x00, 0x01, 0x00, 0x00, 0x00,
    0xff, 0xff, 0xff, 0xff,
];

const DATA: [u8; 24] = [
    0x00, 0x00, 0x00, 0xff, 0x00, 0x00, 0x00, 0x00, 0x00, 0x00, 0x40, 0x00, 0x00, 0x00, 0x00, 0x00,
    0xff, 0xff, 0xff, 0xff, 0xff, 0xff, 0xff, 0xff,
];

/// How many symbols have the name and the address.
fn symbols_at(object: &Object, name: &[u8], address: u64) -> usize {
    let mut count = 0;
    for symbol in object.symbols.as_slice() {
        if symbol.name.as_slice() == name && symbol.address == address && count < 9 {
            count += 1;
        }
    }
    count
}

#[test]
fn bytes_of_another_assembler(rt: HostRuntime) {
    let object = assemble(rt.alloc(), SOURCE)
        .ok()
        .expect(&rt, "a good source");
    assert!(rt; object.text_bytes.as_slice() == &TEXT[..]);
    assert!(rt; object.data_bytes.as_slice() == &DATA[..]);
    assert_eq!(rt; object.entry, 0x400004);
    assert_eq!(rt; object.symbols.len(), 8);
    for (name, address) in [
        (b"message".as_slice(), 0x400000),
        (b"_start".as_slice(), 0x400004),
        (b"done".as_slice(), 0x400020),
        (b"pool".as_slice(), 0x400024),
        (b"value".as_slice(), 0x401008),
        (b"$d".as_slice(), 0x400000),
        (b"$x".as_slice(), 0x400004),
        (b"$d".as_slice(), 0x400024),
    ] {
        assert_eq!(rt; symbols_at(&object, name, address), 1, "at {address:#x}");
    }
}
