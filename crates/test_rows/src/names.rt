//! Node names, `name BYTES`, and bytes escaped for printing, `escape BYTES`.

use crate::digits::{bytes_in, put_bytes, put_number, put_word, word};
use crate::refusals::put_refused;
use dist_names::{NodeName, escape};
use std::alloc::Global;

/// Reports the length of a row's name, its short name and its host; or the first reason why the bytes are not a name; or the escaped text.
pub fn put_name(alloc: Global, printed: &mut String, case: &str) -> Option<()> {
    let bytes = bytes_in(alloc, word(case, 1))?;
    if word(case, 0) == "escape" {
        return put_word(printed, &escape(alloc, &bytes).ok()?);
    }
    match NodeName::new(alloc, &bytes) {
        Ok(name) => put_name_parts(alloc, printed, &name),
        Err(why) => put_refused(printed, &why),
    }
}

fn put_name_parts(alloc: Global, printed: &mut String, name: &NodeName) -> Option<()> {
    put_number(printed, name.bytes().len() as u64)?;
    put_bytes(alloc, printed, name.short())?;
    put_bytes(alloc, printed, name.host())
}
