//! The keys of a table, and the values at them.

ghost use Rattle.std.specs.Prelude.{◌≡◌, option_map, map};
ghost use Rattle.toml.specs.{Data.get_member, View.view, View.table_view};
ghost use Rattle.dist_run_plan.specs.Plans.{is_one_of, has_only};

use dist_names::is_same_text;
use toml::{Table, Value};

// Whether the key is one of these.
fn is_one_of(key: &str, keys: &[&str]) -> bool
    ensures { result ≡ is_one_of (map (λ k. k.now) keys.now) key.now }
{
    for one in keys {
        if is_same_text(one.as_bytes(), key.as_bytes()) {
            return true;
        }
    }
    false
}

/// Whether all keys of a table are among these.
pub fn has_only(table: &Table, keys: &[&str]) -> bool
    ensures { result ≡ has_only (map (λ k. k.now) keys.now) (table_view table.now) }
{
    for row in table.iter() {
        let (key, _) = row;
        if !is_one_of(key.as_str(), keys) {
            return false;
        }
    }
    true
}

/// The value at a key.
pub fn value_at<'a>(table: &'a Table, key: &str) -> Option<&'a Value>
    ensures { option_map (λ v. view v.now) result ≡ get_member key.now (table_view table.now) }
{
    table.get(key)
}
