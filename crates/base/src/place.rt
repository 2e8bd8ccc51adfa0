// A run of bytes stored at a place.
ghost use Rattle.std.specs.Prelude.{◌≡◌};
ghost use Rattle.std.proofs.lemmas.List.Edits.{sets};

// Bytes that have no room are left out.
#[tactic(auto, using(crate::proofs::Lists::sets_more, crate::proofs::Lists::sets_left))]
pub fn store(bytes: &[u8], out: &mut [u8], at: usize)
    ensures { out.new ≡ sets out.old at bytes.now }
{
    let free = out.len().saturating_sub(at);
    for (i, byte) in bytes.iter().enumerate() {
        if i < free {
            out[i + at] = *byte;
        }
    }
}
