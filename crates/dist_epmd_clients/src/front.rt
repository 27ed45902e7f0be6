//! The front of a request's body. It alone is what the body asks: what stands behind the extra of a registration, or behind the
//! one byte of the question for all names, is passed over, as `epmd` does it. The readers of `dist_epmd` pass over nothing.

ghost use Rattle.std.specs.Prelude.{◌≡◌, option_map};
ghost use Rattle.dist_epmd.specs.Reading.{info_at, text_at};
ghost use Rattle.dist_epmd_clients.specs.Asking.{front, up_to};

// What stands behind a text and its length in 2 bytes. `None` where the bytes end inside it.
fn behind_text(bytes: &[u8]) -> Option<&[u8]>
    ensures { option_map (λ behind. behind.now) result ≡ option_map (λ x. x.1) (text_at bytes.now) }
{
    let (head, rest) = bytes.split_first_chunk::<2>()?;
    rest.get(u16::from_be_bytes(*head) as usize..)
}

// What stands behind the fields of a registration. `None` where the bytes end inside them.
fn behind_fields(bytes: &[u8]) -> Option<&[u8]>
    ensures { option_map (λ behind. behind.now) result ≡ option_map (λ x. x.1) (info_at bytes.now) }
{
    // Port, node type, protocol, highest and lowest version, before the name and the extra.
    let [_, _, _, _, _, _, _, _, texts @ ..] = bytes else {
        return None;
    };
    behind_text(behind_text(texts)?)
}

// A registration up to the end of its extra, and all of it where it ends before.
fn front_of_registration<'a>(body: &'a [u8], fields: &[u8]) -> &'a [u8]
    ensures { result.now ≡ up_to body.now (info_at fields.now) }
{
    match behind_fields(fields) {
        Some(behind) => &body[..body.len().saturating_sub(behind.len())],
        None => body,
    }
}

/// The front of a body, which is what the body asks.
#[tactic(auto, unfolding(crate::specs::Asking::front))]
pub fn front_of(body: &[u8]) -> &[u8]
    ensures { result.now ≡ front body.now }
{
    let [tag, fields @ ..] = body else {
        return body;
    };
    match *tag {
        0x78 => front_of_registration(body, fields),
        0x6e => &body[..1],
        _ => body,
    }
}
