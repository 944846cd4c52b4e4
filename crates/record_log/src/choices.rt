//! Tests of records by the database.
ghost use Rattle.std.specs.Prelude.{◌≡◌, not};
ghost use Rattle.open_records.specs.Parties.{are_parties_live, belongs_to, is_none_or_live, is_use_of};

use fw_types::{Attr, Guid, Handle};
use handle_db::Db;
use open_records::{KeyedRecord, Test};

/// The records whose agents belong to an image: the agent is the image's own handle, or the image owns its
/// interface of a protocol.
#[derive(Clone, Copy)]
pub struct AgentsOf<'a> {
    pub image: Handle,
    pub guid: Guid,
    pub db: &'a Db,
}

impl Test for AgentsOf<'_> {
    ghost chosen = { λ of one. belongs_to of.image of.guid of.db.now one.rec.agent };

    fn chooses(&self, one: &KeyedRecord) -> bool {
        belongs_to(self.image, self.guid, self.db, one.rec.agent)
    }
}

/// The records that are uses of an image.
#[derive(Clone, Copy)]
pub struct UsesOf<'a> {
    pub image: Handle,
    pub guid: Guid,
    pub db: &'a Db,
}

impl Test for UsesOf<'_> {
    ghost chosen = { λ of one. is_use_of of.image of.guid of.db.now one };

    fn chooses(&self, one: &KeyedRecord) -> bool {
        if !one.rec.attr.has_bit_of(Attr::AGENT_BITS) {
            return false;
        }
        belongs_to(self.image, self.guid, self.db, one.rec.agent)
            || self.db.is_owned(one.handle.get(), one.guid, self.image)
    }
}

/// The records whose parties are not all there.
#[derive(Clone, Copy)]
pub struct Dead<'a>(pub &'a Db);

impl Test for Dead<'_> {
    ghost chosen = { λ dead one. not (are_parties_live dead.0.now one) };

    fn chooses(&self, one: &KeyedRecord) -> bool {
        !are_parties_live(self.0, one)
    }
}

/// Whether a handle belongs to an image: it is the image's own, or the image owns its interface of a
/// protocol.
fn belongs_to(image: Handle, guid: Guid, db: &Db, handle: u64) -> bool
    ensures { result ≡ belongs_to image guid db.now handle }
{
    handle == image.get() || db.is_owned(handle, guid, image)
}

/// Whether a record's interface is there, its agent is live, and so is its controller if it has one.
fn are_parties_live(db: &Db, one: &KeyedRecord) -> bool
    ensures { result ≡ are_parties_live db.now one.now }
{
    if !db.has(one.handle, one.guid) {
        return false;
    }
    db.is_live(one.rec.agent) && is_none_or_live(one.rec.controller, db)
}

/// Whether an open is for no controller, or for a live one.
fn is_none_or_live(controller: u64, db: &Db) -> bool
    ensures { result ≡ is_none_or_live controller db.now }
{
    controller == 0 || db.is_live(controller)
}
