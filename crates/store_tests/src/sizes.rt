//! Which batches can be one record.

ghost use Rattle.std.specs.Prelude.{◌≡◌, ◌≤◌, ◌<◌, ◌^◌, IfSome, length, true};
ghost use Rattle.var_log.specs.Records.{body_of, change_bytes, record_size};

use cu_base::Guid;
use var_log::{Change, MAX_CHANGES, MAX_RECORD};

/// The most bytes of a body that is one record: its head takes 16, and it is padded to a multiple
/// of 8.
const MAX_BODY: usize = MAX_RECORD - 16;

/// Whether these changes can be one record.
pub(crate) fn is_recordable(changes: &[Change]) -> bool
    ensures count { result ≡ true → length changes.now ≤ MAX_CHANGES }
    ensures size { result ≡ true → record_size 2 (length (body_of changes.now)) ≤ MAX_RECORD }
{
    if changes.len() > MAX_CHANGES {
        return false;
    }
    body_len(changes).is_some()
}

/// The bytes of the body of these changes, where they are few enough.
fn body_len(changes: &[Change]) -> Option<usize>
    ensures value { IfSome result (λ n. n ≡ length (body_of changes.now)) }
    ensures bound { IfSome result (λ n. n ≤ MAX_BODY) }
{
    let mut body = 2;
    for change in changes {
        let len = change_len(change)?;
        body += len;
        if body > MAX_BODY {
            return None;
        }
    }
    Some(body)
}

/// The bytes of a GUID.
fn id(guid: &Guid) -> &[u8]
    ensures value { result.now ≡ guid.now.bytes }
    ensures long { length result.now ≡ 16 }
{
    &guid.bytes
}

/// The bytes of a change, where they are few enough.
fn change_len(change: &Change) -> Option<usize>
    ensures value { IfSome result (λ n. n ≡ length (change_bytes change.now)) }
    ensures bound { IfSome result (λ n. n < 2 ^ 30) }
{
    let name = change.name().as_str().len();
    if name > MAX_BODY {
        return None;
    }
    match change {
        Change::Set { guid, value, .. } if value.len() <= MAX_BODY => {
            Some(10 + name + id(guid).len() + value.len())
        }
        Change::Set { .. } => None,
        Change::Delete { guid, .. } => Some(2 + name + id(guid).len()),
    }
}
