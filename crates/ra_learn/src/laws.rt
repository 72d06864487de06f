//! The laws of stateful RA-Guard. Each function does nothing: its contract is the law.

ghost use Rattle.std.specs.Prelude.{◌≡◌, ℕ, List, Option};
ghost use Rattle.v6_chain.specs.declared.packet.Ip.{Ip};
ghost use Rattle.ra_learn.specs.declared.advert.Ra.{Ra};
ghost use Rattle.ra_learn.specs.RouterAdverts.{ReadsAdvert, advert_of};
ghost use Rattle.ra_learn.specs.Laws.{OthersTellNothing, PassesWhereItMay, TablesStayWithinLimits};

/// Each message has one reading, and `advert_of` computes it: what it says where it is a good router advertisement, and
/// nothing where it isn't one (RFC 4861 sections 4.2 and 6.1.2).
pub fn an_advert_has_its_reading()
    ensures reading { (ip : Ip) (message : List ℕ) → ReadsAdvert ip message (advert_of ip message) }
    ensures only { (ip : Ip) (message : List ℕ) (other : Option Ra) → ReadsAdvert ip message other → other ≡ advert_of ip message }
{}

/// An advertisement passes exactly where its port forwards and it is good and acceptable there (RFC 6105 section 3).
pub fn adverts_pass_where_they_may()
    ensures { PassesWhereItMay }
{}

/// What is seen at a port that doesn't forward changes no router and no prefix.
pub fn dropped_adverts_tell_nothing()
    ensures { OthersTellNothing }
{}

/// Each router and each prefix has one entry, in order, and at most 64 and 32 are kept.
pub fn tables_stay_within_limits()
    ensures { TablesStayWithinLimits }
{}
