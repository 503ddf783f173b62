// Fields: a tag, a two-byte length and a content of that length.
ghost use Rattle.std.specs.Prelude.{◌≡◌, true, false, MatchOption, slice_index};
ghost use Rattle.house.specs.Fields.{cut_short, content_of, behind_of};

// A field, and the bytes that stand behind it.
#[derive(Clone, Copy)]
pub struct Field<'a> {
    pub tag: u8,
    pub content: &'a [u8],
    pub behind: &'a [u8],
}

// The field at the front of the bytes; none where the bytes end within it.
pub fn first_field(bytes: &[u8]) -> Option<Field<'_>>
    ensures { MatchOption result (cut_short bytes.now ≡ true) (λ f. (cut_short bytes.now ≡ false) × (f.tag ≡ slice_index bytes.now 0) × (f.content.now ≡ content_of bytes.now) × (f.behind.now ≡ behind_of bytes.now)) }
{
    let [tag, hi, lo, rest @ ..] = bytes else {
        return None;
    };
    let size = u16::from_be_bytes([*hi, *lo]) as usize;
    if rest.len() < size {
        return None;
    }
    let (content, behind) = rest.split_at(size);
    Some(Field {
        tag: *tag,
        content,
        behind,
    })
}
