// What the texts come to. Each function does nothing: its contract is the law.

ghost use Rattle.std.specs.Prelude.{◌≡◌, ◌^◌, ◌<◌, ◌≤◌, ℕ, List, All, length};
ghost use Rattle.savi_kinds.specs.declared.address.Addr.{Addr};
ghost use Rattle.savi_kinds.specs.declared.address.Mac.{Mac};
ghost use Rattle.savi_kinds.specs.declared.address.Prefix.{Prefix};
ghost use Rattle.savi_kinds.specs.Prefixes.{IsPrefix};
ghost use Rattle.savi_kinds.specs.AddrText.{IsAddrText, IsAddrChar, IsSpelling, addr_text, groups_of};
ghost use Rattle.savi_kinds.specs.KeyText.{IsKeyText, key_text, mac_key_text};
ghost use Rattle.savi_kinds.specs.MacText.{IsMacText, HasSixOctets, mac_text};
ghost use Rattle.savi_kinds.specs.PrefixText.{IsPrefixText, prefix_text};
ghost use Rattle.savi_kinds.specs.Vlans.{IsVlan};

/// Law: a text is that of one address at most.
pub fn a_text_is_of_one_addr()
    ensures { (text : List ℕ) (a b : Addr) → IsAddrText text a → IsAddrText text b → a ≡ b }
{}

/// Law: the text that is written of an address is read again as this address.
pub fn addr_texts_are_read_again()
    ensures { (a : Addr) → a.0 < 2 ^ 128 → IsAddrText (addr_text a) a }
{}

/// Law: the text of an address keeps the rules of RFC 5952 section 4, and no other text of its groups does.
pub fn addr_texts_have_one_spelling()
    ensures kept { (a : Addr) → IsSpelling (addr_text a) (groups_of a) }
    ensures only { (a : Addr) (text : List ℕ) → IsSpelling text (groups_of a) → text ≡ addr_text a }
{}

/// Law: the text of an address has 2 to 39 octets, each of them a digit, a letter from a to f or a colon.
pub fn addr_texts_are_plain()
    ensures characters { (a : Addr) → All IsAddrChar (addr_text a) }
    ensures least { (a : Addr) → 2 ≤ length (addr_text a) }
    ensures most { (a : Addr) → length (addr_text a) ≤ 39 }
{}

/// Law: a text is that of one address in one VLAN at most.
pub fn a_text_is_of_one_key()
    ensures vlan { (text : List ℕ) (v w : ℕ) (a b : Addr) → IsKeyText text v a → IsKeyText text w b → v ≡ w }
    ensures address { (text : List ℕ) (v w : ℕ) (a b : Addr) → IsKeyText text v a → IsKeyText text w b → a ≡ b }
{}

/// Law: the text that is written of an address in a VLAN is read again as this address in this VLAN.
pub fn key_texts_are_read_again()
    ensures { (vlan : ℕ) (a : Addr) → IsVlan vlan → a.0 < 2 ^ 128 → IsKeyText (key_text vlan a) vlan a }
{}

/// Law: no text is that of two MAC addresses, or of one in two VLANs.
pub fn mac_keys_have_texts_of_their_own()
    ensures vlan { (v w : ℕ) (m n : Mac) → IsVlan v → IsVlan w → HasSixOctets m → HasSixOctets n → mac_key_text v m ≡ mac_key_text w n → v ≡ w }
    ensures mac { (v w : ℕ) (m n : Mac) → IsVlan v → IsVlan w → HasSixOctets m → HasSixOctets n → mac_key_text v m ≡ mac_key_text w n → m ≡ n }
{}

/// Law: a text is that of one MAC address at most.
pub fn a_text_is_of_one_mac()
    ensures { (text : List ℕ) (m n : Mac) → IsMacText text m → IsMacText text n → m ≡ n }
{}

/// Law: the text that is written of a MAC address is read again as this MAC address.
pub fn mac_texts_are_read_again()
    ensures { (m : Mac) → HasSixOctets m → IsMacText (mac_text m) m }
{}

/// Law: a text is that of one prefix at most.
pub fn a_text_is_of_one_prefix()
    ensures { (text : List ℕ) (p q : Prefix) → IsPrefixText text p → IsPrefixText text q → p ≡ q }
{}

/// Law: the text of a prefix is read again as this prefix.
pub fn prefix_texts_are_read_again()
    ensures { (p : Prefix) → p.net.0 < 2 ^ 128 → IsPrefix p → IsPrefixText (prefix_text p) p }
{}
