//! The private memory of a guest thread, in pages of 4 KiB, and the image of a program from which it starts.
//!
//! `Pages` is a finite map from addresses to bytes and one from page numbers to permissions; `read`, `fetch`
//! and `page` are exact on it.
//! The bytes of a page are shared with the image and with other threads until they are written: the first
//! write to a page gives it a copy of its own, and `own_pages` counts those copies.
//! A page is found by a hint, and by binary search where another page stands there. What lies near, in the page
//! that is hinted at, is read and written without a search.
#![tactic(auto)]

mod code;
mod hints;
mod image;
mod page;
mod page_bytes;
mod page_list;
mod pages;
mod writes;

pub use code::{Code, word_of};
pub use image::{Image, Part};
pub use page_list::{PageImage, PageList};
pub use pages::{Abort, PageView, Pages, WriteStop};
