// The form of a list of writes, and the fields of its items.
ghost use Rattle.std.specs.Prelude.{◌≡◌, true, ◌+◌, ◌≤◌, ◌<◌, length};
ghost use Rattle.layout.specs.Lists.{every};
ghost use Rattle.write_list.specs.List.{max_list, path_length, path_at, data_at, item_ok, items, list_ok};

use layout::number::get32;

const MAX_LIST: usize = 65536;

// The length of the path of the item at `at`.
fn path_length(list: &[u8], at: usize) -> usize
    requires { at + 18 ≤ length list.now }
    ensures { (result ≡ path_length list.now at) × (result < 65536) }
{
    usize::from(list[at + 16]) * 256 + usize::from(list[at + 17])
}

// The path of the item at `at`.
pub fn path_of(list: &[u8], at: usize) -> &[u8]
    requires { item_ok list.now at ≡ true }
    ensures { result.now ≡ path_at list.now at }
{
    let a = at + 18;
    let e = a + path_length(list, at);
    &list[a..e]
}

// The data of the item at `at`.
pub fn data_of(list: &[u8], at: usize) -> &[u8]
    requires { item_ok list.now at ≡ true }
    ensures { result.now ≡ data_at list.now at }
{
    let a = at + 18 + path_length(list, at);
    let e = at + get32(list, at) as usize;
    &list[a..e]
}

// Whether an item stands at `at` that ends within the list and has room for its path.
fn item_ok(list: &[u8], at: usize) -> bool
    requires { at < length list.now }
    ensures { result ≡ item_ok list.now at }
{
    let left = list.len() - at;
    if left < 18 {
        return false;
    }
    let size = get32(list, at) as usize;
    size <= left && 18 + path_length(list, at) <= size
}

// Whether items fill the list exactly, from its sixth byte on.
fn items_ok(list: &[u8]) -> bool
    requires { (5 ≤ length list.now) × (length list.now ≤ max_list) }
    ensures { result ≡ every (item_ok list.now) (items list.now) }
{
    let mut at = 5;
    while at < list.len() {
        if !item_ok(list, at) {
            return false;
        }
        at += get32(list, at) as usize;
    }
    true
}

// Whether a list is of the form.
pub fn list_ok(list: &[u8]) -> bool
    ensures { result ≡ list_ok list.now }
{
    if list.len() < 5 || MAX_LIST < list.len() {
        return false;
    }
    list[0] == 1 && get32(list, 1) as usize == list.len() && items_ok(list)
}
