//! The vectors of a thread, at each pair of lengths.

use sm_types::VecLen;
use sve_vectors::Vectors;

const LENGTHS: [VecLen; 5] = [
    VecLen::Bits128,
    VecLen::Bits256,
    VecLen::Bits512,
    VecLen::Bits1024,
    VecLen::Bits2048,
];

fn fill(bytes: &mut [u8], value: u8) {
    for byte in bytes.iter_mut() {
        *byte = value;
    }
}

fn fill_last_of_each(vectors: &mut Vectors) {
    fill(vectors.z_mut(31), 0xa5);
    fill(vectors.p_mut(15), 0x81);
    fill(vectors.ffr_mut(), 0xff);
}

fn are_all(bytes: &[u8], value: u8) -> bool {
    for byte in bytes {
        if *byte != value {
            return false;
        }
    }
    true
}

/// Vectors have so many bytes, and all bytes of Z31, P15 and FFR have those values.
fn are_filled(vectors: &Vectors, length: usize, values: [u8; 3]) -> bool {
    let (z, p, ffr) = (vectors.z(31), vectors.p(15), vectors.ffr());
    let long = z.len() == length && p.len() == length / 8 && ffr.len() == length / 8;
    long && are_all(z, values[0]) && are_all(p, values[1]) && are_all(ffr, values[2])
}

#[test]
fn a_change_of_mode_clears_vectors(rt: HostRuntime) {
    for vl in LENGTHS {
        for svl in LENGTHS {
            let mut vectors = Vectors::new(rt.alloc(), vl, svl).ok().expect(&rt, "memory");
            assert!(rt; vectors.vl() == vl && vectors.svl() == svl && !vectors.streaming());
            fill_last_of_each(&mut vectors);
            vectors.set_streaming(false);
            assert!(rt; vectors.length() == vl.bytes());
            assert!(rt; are_filled(&vectors, vl.bytes(), [0xa5, 0x81, 0xff]));
            vectors.set_streaming(true);
            assert!(rt; vectors.length() == svl.bytes());
            assert!(rt; are_filled(&vectors, svl.bytes(), [0, 0, 0]));
            fill_last_of_each(&mut vectors);
            vectors.set_streaming(false);
            assert!(rt; are_filled(&vectors, vl.bytes(), [0, 0, 0]));
        }
    }
}
