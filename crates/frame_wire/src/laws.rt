//! What follows from the definitions alone. Each law is a contract.

ghost use Rattle.std.specs.Prelude.{◌≡◌, ◌≤◌, ◌+◌, ◌↔◌, List, [], ◌∷◌, ℕ, pos, negsuc, ◌++◌, length};
ghost use Rattle.frame_wire.specs.declared.head.Head.{Head};
ghost use Rattle.frame_wire.specs.declared.decoded.Decoded.{Decoded};
ghost use Rattle.frame_wire.specs.declared.decoded.Decoded.TheVariants as decoded;
ghost use Rattle.frame_wire.specs.Spelling.{header_length, header, frame, IsHead};
ghost use Rattle.frame_wire.specs.Decoding.{Decodes};

/// A frame has one spelling, and no spelling is the front of another.
pub fn no_frame_begins_another()
    ensures { (g h : Head) (a b x y : List ℕ) → IsHead g → IsHead h → length a ≡ g.len → length b ≡ h.len
        → frame g a ++ x ≡ frame h b ++ y → (g ≡ h) × (a ≡ b) }
{}

/// A frame's spelling is decoded as that frame, whatever follows it, and as nothing else.
pub fn a_frame_is_decoded()
    ensures { (h : Head) (body rest : List ℕ) (most : ℕ) (answer : Decoded) → IsHead h → length body ≡ h.len → h.len ≤ most
        → (Decodes (frame h body ++ rest) most answer ↔ (answer ≡ decoded.Frame h (header_length + h.len))) }
{}

/// Worked rows of the spelling: a read of 4,096 bytes at 0, and a write whose offset is -2.
pub fn headers_are_spelled_so()
    ensures read { header (record { seq = 1; kind = 0; offset = pos 0; size = 4096; len = 0 })
        ≡ 0x01 ∷ 0x1b ∷ 1 ∷ 0 ∷ 0 ∷ 0 ∷ 0 ∷ 0 ∷ 0 ∷ 0 ∷ 0 ∷ 0 ∷ 0 ∷ 0 ∷ 0 ∷ 0 ∷ 0 ∷ 0 ∷ 0 ∷ 0x10 ∷ 0 ∷ 0 ∷ 0 ∷ 0 ∷ 0 ∷ 0 ∷ [] }
    ensures below_0 { header (record { seq = 0x0403_0201; kind = 1; offset = negsuc 1; size = 2; len = 0x0102 })
        ≡ 0x01 ∷ 0x1b ∷ 1 ∷ 2 ∷ 3 ∷ 4 ∷ 1 ∷ 0 ∷ 0 ∷ 0 ∷ 0xfe ∷ 0xff ∷ 0xff ∷ 0xff ∷ 0xff ∷ 0xff ∷ 0xff ∷ 0xff
        ∷ 2 ∷ 0 ∷ 0 ∷ 0 ∷ 2 ∷ 1 ∷ 0 ∷ 0 ∷ [] }
{}
