//! Where the pages of these tests come from.

ghost use Rattle.std.specs.Prelude.{◌≡◌, ◌*◌, ◌+◌, ◌≤◌, true, Some, length, IfOk};
ghost use Rattle.vol_units.specs.Bytes.{zeros};
ghost use Rattle.backup_units.specs.Backups.{page_at};
ghost use Rattle.backup_units.specs.Blocks.{page_bytes};
ghost use Rattle.backup_make.specs.Giving.{AreWithin, Else, HasCopy};
ghost use Rattle.backup_tables.specs.Live.{live};

use backup_make::{GiveError, PageGiver, Pages};
use backup_units::PAGE_LENGTH;
use std::alloc::{AllocError, Global};
use std::sync::Wait;
use vol_units::{BadSize, LayerName, VolumeSize};

/// The copy of a name that is asked for, and that of a base, of one size.
#[derive(Drop)]
pub(crate) struct Copies {
    pub name: LayerName,
    pub disk: Vec<u8>,
    pub base: LayerName,
    pub old: Vec<u8>,
    pub count: u32,
    /// The page that was given last.
    page: Vec<u8>,
    /// How many pages were given.
    pub given: u64,
    /// No replica is left.
    pub has_none: bool,
    ghost whole: { (length disk.items ≡ count * page_bytes) × (length old.items ≡ count * page_bytes) },
}

impl Copies {
    /// The copy of that name, and a base that is no backup's.
    pub fn new(
        alloc: Global,
        name: LayerName,
        fills: &[u8],
        base: LayerName,
    ) -> Result<Copies, AllocError>
        requires { length fills.now ≤ 512 }
        ensures { IfOk result (λ g. g.name ≡ name) }
    {
        Ok(Copies {
            name,
            disk: disk_of(alloc, fills)?,
            base,
            old: disk_of(alloc, fills)?,
            count: fills.len() as u32,
            page: Vec::new(alloc),
            given: 0,
            has_none: false,
        })
    }

    /// The copy of another name, of which this one's is the base.
    pub fn next(self, alloc: Global, name: LayerName, fills: &[u8]) -> Result<Copies, AllocError>
        requires size { length fills.now ≡ self.count }
        requires small { length fills.now ≤ 512 }
        ensures name { IfOk result (λ g. g.name ≡ name) }
        ensures base { IfOk result (λ g. live g.disk.items g.base g.old.items self.name
            ≡ live self.disk.items self.base self.old.items self.name) }
    {
        let is_base = self.name.as_bytes() == self.base.as_bytes();
        let Copies {
            name: base,
            disk,
            base: _,
            old,
            count,
            page,
            given: _,
            has_none: _,
        } = self;
        let next = disk_of(alloc, fills)?;
        let old = if is_base { old } else { disk };
        Ok(Copies {
            name,
            disk: next,
            base,
            old,
            count,
            page,
            given: 0,
            has_none: false,
        })
    }

    /// The size of both.
    pub fn size(&self) -> Result<VolumeSize, BadSize>
        ensures { IfOk result (HasCopy (live self.now.disk.items self.now.base self.now.old.items self.now.name)) }
    {
        VolumeSize::new(self.disk.len() as u64)
    }

    /// The copy of the name that is asked for.
    fn copy(&self) -> &[u8]
        ensures copy { live self.now.disk.items self.now.base self.now.old.items self.now.name ≡ Some result.now }
        ensures size { length result.now ≡ self.now.count * page_bytes }
    {
        if self.name.as_bytes() == self.base.as_bytes() {
            &self.old
        } else {
            &self.disk
        }
    }
}

impl PageGiver for Copies {
    ghost use Rattle.std.specs.Prelude.{◌≡◌, true};
    ghost use Rattle.backup_tables.specs.Live.{live};

    ghost copies = { λ g. live g.disk.items g.base g.old.items };

    ghost asked = { λ g. g.name };

    ghost given = { λ g. g.page.items };

    ghost has_none = { λ g. g.has_none ≡ true };

    ghost Fact = { Unit {0} };

    ghost lasts = { λ g fact. Unit {0} };

    ghost Home = { Unit {0} };

    ghost home = { λ g. tt };

    ghost ready = { λ g. Unit {0} };

    fn pages<R: Wait>(
        &mut self,
        _rt: &R,
        alloc: Global,
        base: Option<&LayerName>,
    ) -> Result<Pages, AllocError> {
        if let Some(name) = base {
            if name.as_bytes() == self.base.as_bytes() {
                let pages = changed(alloc, self.copy(), &self.old, self.count)?;
                return Ok(Pages::Above(pages));
            }
        }
        let pages = filled(alloc, self.copy(), self.count)?;
        Ok(Pages::All(pages))
    }

    fn page<R: Wait>(&mut self, _rt: &R, alloc: Global, page: u32) -> Result<(), GiveError> {
        if self.has_none {
            return Err(GiveError::NoReplica);
        }
        match page_of(self.copy(), page).to_vec(alloc) {
            Ok(bytes) => self.page = bytes,
            Err(_) => return Err(GiveError::NoMemory),
        }
        self.given = self.given.saturating_add(1);
        Ok(())
    }

    fn given_page(&self) -> &[u8] {
        &self.page
    }
}

/// The pages of a copy that are not all zeros.
fn filled(alloc: Global, disk: &[u8], count: u32) -> Result<Vec<u32>, AllocError>
    requires { length disk.now ≡ count * page_bytes }
    ensures within { IfOk result (λ pages. AreWithin pages.items disk.now) }
    ensures zeros { IfOk result (λ pages. Else pages.items disk.now (λ _ bytes. bytes ≡ zeros page_bytes)) }
{
    let blank = zeros_of(alloc, disk.len())?;
    changed(alloc, disk, &blank, count)
}

fn zeros_of(alloc: Global, count: usize) -> Result<Vec<u8>, AllocError>
    ensures { IfOk result (λ bytes. bytes.items ≡ zeros count) }
{
    vec![in alloc; 0; count]
}

/// The pages in which two copies differ.
fn changed(alloc: Global, disk: &[u8], old: &[u8], count: u32) -> Result<Vec<u32>, AllocError>
    requires disk { length disk.now ≡ count * page_bytes }
    requires old { length old.now ≡ count * page_bytes }
    ensures within { IfOk result (λ pages. AreWithin pages.items disk.now) }
    ensures same { IfOk result (λ pages. Else pages.items disk.now (λ page bytes. bytes ≡ page_at old.now page)) }
{
    let mut pages = Vec::new(alloc);
    for page in 0..count {
        let is_same = page_of(disk, page) == page_of(old, page);
        if !is_same {
            pages.push(page)?;
        }
    }
    Ok(pages)
}

fn page_of(disk: &[u8], page: u32) -> &[u8]
    requires { page * page_bytes + page_bytes ≤ length disk.now }
    ensures { result.now ≡ page_at disk.now page }
{
    let start = page as usize * PAGE_LENGTH;
    &disk[start..start + PAGE_LENGTH]
}

/// A disk of which each page has 4,096 bytes of one value, and zeros behind.
pub(crate) fn disk_of(alloc: Global, fills: &[u8]) -> Result<Vec<u8>, AllocError>
    requires { length fills.now ≤ 512 }
    ensures { IfOk result (λ disk. length disk.items ≡ length fills.now * page_bytes) }
{
    let mut disk = vec![in alloc; 0; fills.len() * PAGE_LENGTH]?;
    fill_pages(&mut disk, fills);
    Ok(disk)
}

fn fill_pages(disk: &mut [u8], fills: &[u8])
    requires { length disk.old ≡ length fills.now * page_bytes }
{
    for page in 0..fills.len() {
        let start = page * PAGE_LENGTH;
        disk[start..start + 4096].fill(fills[page]);
    }
}
