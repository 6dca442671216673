//! A version: the mesh of a ground with the obstacles that a history leaves. The stage, on which versions are shown to eyes. What a press
//! shows: a version with the list of its entries. Two copies of it are held, of which readers have one.

ghost use Rattle.std.specs.Prelude.{◌≡◌, [], IfOk, MatchBool, Some, None, drop};
ghost use Rattle.left_right.specs.Sides.{view};
ghost use Rattle.nav_version.specs.VersionRule.{GoesOn, IsShown};

use crate::entries::Entries;
use crate::rule::{Learning, Publishing, Telling, Told, Versions};
use core::mem::replace_with;
use left_right::Absorb;
use left_right::reader::Reader;
use left_right::writer::Writer;
use nav_ground::Ground;
use nav_lists::Shared;
use nav_query::PreparedMesh;
use std::alloc::{AllocError, Global};
use std::marker::Model;
use std::sync::{Arc, Wait};

/// A ground, the entries of its history so far, the oldest first, and the mesh of the ground with the obstacles that are alive after them.
/// The number of the entries is the version's length. The mesh may have other owners, and landmarks.
#[derive(Drop)]
pub struct Version {
    pub ground: Arc<Ground>,
    pub entries: Entries,
    pub mesh: PreparedMesh,
}

type VersionWriter = Writer<PublishedVersion, PublishedVersion, Option<PublishedVersion>, Versions>;

/// What an eye reads by.
pub(crate) type VersionReader = Reader<PublishedVersion, Option<PublishedVersion>, Versions>;

/// What is shown, and knows that it is. It is not `Drop`: `end` ends it.
pub(crate) struct HeldVersion {
    writer: VersionWriter,
}

impl Model for HeldVersion {
    ghost use Rattle.nav_version.specs.declared.version.PublishedVersion.{PublishedVersion};

    ghost Value = { PublishedVersion };

    ghost use Rattle.nav_version.specs.StageKept.{stage_view, IsStageKept};

    ghost view = { stage_view };

    ghost invariant = { IsStageKept };
}

// A writer of two copies, which does not know yet what it shows.
fn writer_of(
    alloc: Global,
    first: &PublishedVersion,
    readers: u32,
) -> Result<VersionWriter, AllocError>
    requires { IsShown first.now }
    ensures value { IfOk result (λ writer. writer.desk.shown.value ≡ first.now) }
{
    let shown = first.share()?;
    let spare = first.share()?;
    Writer::new(alloc, shown, spare, readers.max(1) as usize)
}

// The writer once it shows the next version, and whether it does. It does not where memory is refused.
fn shown<R: Wait>(writer: VersionWriter, next: (&R, PublishedVersion)) -> (VersionWriter, bool)
    requires is { IsShown next.1 }
    requires goes_on { GoesOn writer.desk.shown.value next.1 }
    ensures { MatchBool result.1 ((result.0.desk.shown.value ≡ next.entry.1) × (view result.0.desk.place ≡ Some next.entry.1))
        ((result.0.desk.shown.value ≡ writer.desk.shown.value) × (view result.0.desk.place ≡ view writer.desk.place)) }
{
    let (rt, next) = next;
    let mut writer = writer;
    match writer.append(next) {
        Ok(()) => {
            let (writer, published) = writer.publish_as::<Publishing, R>(rt);
            match published {
                Ok(()) => (writer, true),
                Err(_refused) => (writer, false),
            }
        }
        Err(_next) => (writer, false),
    }
}

impl HeldVersion {
    /// A stage that shows a first version. Where memory is refused, the version is gone.
    pub(crate) fn begin<R: Wait>(
        rt: &R,
        alloc: Global,
        first: PublishedVersion,
        readers: u32,
    ) -> Result<HeldVersion, AllocError>
        requires { IsShown first }
        ensures { IfOk result (λ stage. stage ≡ first) }
    {
        let writer = writer_of(alloc, &first, readers)?;

        // It is shown once more, since only what it shows by a step of its own does the writer know.
        let (writer, knows) = shown(writer, (rt, first));
        if knows {
            Ok(HeldVersion { writer })
        } else {
            let _last = writer.take(rt);
            Err(AllocError)
        }
    }

    /// What is shown.
    pub(crate) fn shown(&self) -> &PublishedVersion
        ensures value { result.now ≡ self.now }
        ensures rules { IsShown self.now }
    {
        self.writer.published()
    }

    /// Shows the next version, at one step, and says whether it did. It waits for eyes that still read the version from before the last one.
    pub(crate) fn show<R: Wait>(&mut self, rt: &R, next: PublishedVersion) -> bool
        requires is { IsShown next }
        requires goes_on { GoesOn self.old next }
        ensures shown { MatchBool result (self.new ≡ next) (self.new ≡ self.old) }
        ensures rules { IsShown self.new }
    {
        replace_with(&mut self.writer, (rt, next), shown::<R>)
    }

    /// One more reader, which knows what is shown.
    pub(crate) fn looker(&mut self) -> Result<VersionReader, AllocError>
        ensures same { self.new ≡ self.old }
        ensures knows { IfOk result (λ reader. view reader.place ≡ Some self.old) }
    {
        let mut reader = self.writer.factory().reader()?;
        let note = self.writer.tell::<Telling>();
        reader.learn::<Learning>(note);
        Ok(reader)
    }

    /// Ends it. It waits for eyes that are reading.
    pub(crate) fn end<R: Wait>(self, rt: &R) {
        let HeldVersion { writer } = self;
        let _last = writer.take(rt);
    }
}

/// A version, and the list that is published with it.
#[derive(Drop)]
pub struct PublishedVersion {
    pub version: Shared<Version>,
    pub told: Told,
}

impl PublishedVersion {
    /// A further owner of the same version. It is refused only where the count of owners has reached its end.
    pub(crate) fn share(&self) -> Result<PublishedVersion, AllocError>
        ensures { IfOk result (λ copy. copy ≡ self.now) }
    {
        Ok(PublishedVersion {
            version: self.version.share()?,
            told: self.told.again(),
        })
    }
}

/// What is shown next takes the place of what was shown.
impl Absorb<PublishedVersion> for PublishedVersion {
    type State = PublishedVersion;

    ghost state = { λ shown. shown };

    ghost use Rattle.nav_version.specs.VersionRule.{next_of};

    ghost applied = { next_of };

    fn absorb_first(
        &mut self,
        operation: &PublishedVersion,
        _other: &PublishedVersion,
    ) -> Result<(), AllocError> {
        *self = operation.share()?;
        Ok(())
    }

    fn absorb_second(
        &mut self,
        operation: PublishedVersion,
        _other: &PublishedVersion,
    ) -> Result<(), PublishedVersion> {
        *self = operation;
        Ok(())
    }
}
