//! What a frame is, and what is seen of it, as functions. The functions here do nothing: their contracts are the laws.

ghost use Rattle.std.specs.Prelude.{◌≡◌, ◌↔◌, ℕ, List};
ghost use Rattle.eth_frame.specs.declared.header.Eth.{Eth};
ghost use Rattle.eth_frame.specs.declared.vlan_tag.Tag.TheVariants as tags;
ghost use Rattle.eth_frame.specs.Tags.{inner, tag_of};
ghost use Rattle.frame_class.specs.declared.classes.Class.{Class};
ghost use Rattle.frame_class.specs.declared.classes.Class.TheVariants.{Tagged};
ghost use Rattle.frame_class.specs.declared.classes.Seen.{Seen};
ghost use Rattle.frame_class.specs.Reading.{IsClassOf};
ghost use Rattle.frame_class.specs.ClassOf.{class_of};
ghost use Rattle.frame_class.specs.Seen.{IsSeen, seen_of};

/// Each frame has one class, and `class_of` computes it from the octets.
pub fn a_frame_has_its_class()
    ensures reading { (frame : List ℕ) → IsClassOf frame (class_of frame) }
    ensures only { (frame : List ℕ) (other : Class) → IsClassOf frame other → other ≡ class_of frame }
{}

/// Each frame is seen in one way, its tag and the class of its inner frame, and `seen_of` computes it from the octets.
pub fn a_frame_is_seen_once()
    ensures reading { (frame : List ℕ) → IsSeen frame (seen_of frame) }
    ensures only { (frame : List ℕ) (other : Seen) → IsSeen frame other → other ≡ seen_of frame }
{}

/// An inner frame has a tag exactly where the tag of the frame names no VLAN.
pub fn a_bad_tag_is_a_class()
    ensures { (frame : List ℕ) → (tag_of frame ≡ tags.Bad) ↔ ((eth : Eth) × (class_of (inner frame) ≡ Tagged eth)) }
{}
