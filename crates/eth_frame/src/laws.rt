//! What a tag does to a frame. The functions here do nothing: their contracts are the laws.

ghost use Rattle.std.specs.Prelude.{◌≡◌, ◌≤◌, ℕ, false, List, length};
ghost use Rattle.eth_frame.specs.declared.vlan_tag.Tag.TheVariants as tags;
ghost use Rattle.eth_frame.specs.Frame.{header_of};
ghost use Rattle.eth_frame.specs.Tags.{has_tag, inner, tag_of, tagged};

/// A frame that gets the tag of a VLAN names this VLAN, and its inner frame is the one that was tagged.
pub fn a_tagged_frame_has_its_vlan()
    ensures vlan { (frame : List ℕ) (vid : ℕ) → 14 ≤ length frame → has_tag frame ≡ false → 1 ≤ vid → vid ≤ 4094 → tag_of (tagged vid frame) ≡ tags.Vid vid }
    ensures again { (frame : List ℕ) (vid : ℕ) → 14 ≤ length frame → has_tag frame ≡ false → 1 ≤ vid → vid ≤ 4094 → inner (tagged vid frame) ≡ frame }
{}

/// An inner frame has the addresses of its frame. It has a whole header where its frame has one, and it is no longer.
pub fn an_inner_frame_has_the_same_addresses()
    ensures dst { (frame : List ℕ) → (header_of (inner frame)).dst ≡ (header_of frame).dst }
    ensures src { (frame : List ℕ) → (header_of (inner frame)).src ≡ (header_of frame).src }
    ensures whole { (frame : List ℕ) → 14 ≤ length frame → 14 ≤ length (inner frame) }
    ensures short { (frame : List ℕ) → length (inner frame) ≤ length frame }
{}
