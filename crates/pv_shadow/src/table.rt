// The pages by their numbers. Most stand in a bucket that the number tells, and are found without a search.
ghost use Rattle.std.specs.Prelude.{◌≡◌, ℕ, ◌%◌, ◌<◌, [], None, Some, IsSome, IsTrue, OnOk, OnErr, length, is_some, slice_index_or};
ghost use Rattle.std.specs.Option.{option_copied, option_copied_mut};
ghost use Rattle.std.specs.Borrow.{sem};
ghost use Rattle.pv_shadow.specs.declared.table.Bucket.TheVariants.{Free, Taken};
ghost use Rattle.pv_shadow.specs.Buckets.{page_in, near_in, all_pages, page_said, SaysAt, LendsPage, LendsNear, LendsBucket};

use crate::page::Page;
use pv_prov::NoMemory;
use std::alloc::Global;
use std::collections::BTreeMap;
use std::mem;

// So many buckets there are, which take 8 KB.
const BUCKETS: usize = 256;

/// A place for one page, beside which its number stands.
#[derive(Drop)]
pub(crate) enum Bucket {
    Free,
    Taken(u64, Page),
}

impl Bucket {
    // The page with this number, if it stands here.
    #[inline(always)]
    fn page(&self, k: u64) -> Option<&Page>
        ensures value { option_copied result ≡ page_in self.now k }
    {
        match self {
            Bucket::Taken(number, page) => { if *number == k { Some(page) } else { None } }
            Bucket::Free => None,
        }
    }

    // The same for writing, where it is known to stand here.
    #[inline(always)]
    fn page_mut(&mut self, k: u64) -> &mut Page
        requires { IsSome (page_in self.old k) }
        ensures* writes_back { sem 𝓛 (LendsBucket self.entry result) }
        ensures value { page_in self.old k ≡ Some result.now }
    {
        match self {
            Bucket::Taken(_, page) => page,
            Bucket::Free => unreachable!(),
        }
    }

    // Whether nothing stands here.
    fn is_free(&self) -> bool
        ensures { IsTrue result → self.now ≡ Free }
    {
        match self {
            Bucket::Taken(_, _) => false,
            Bucket::Free => true,
        }
    }

    // This page stands here from now on.
    fn fill(&mut self, k: u64, page: Page)
        ensures { self.new ≡ Taken k page }
    {
        *self = Bucket::Taken(k, page);
    }

    // The page goes that stands here, if one does.
    fn take(&mut self) -> Option<Page>
        ensures value { (k : ℕ) → IsSome (page_in self.old k) → result ≡ page_in self.old k }
        ensures free { self.new ≡ Free }
    {
        match mem::replace(self, Bucket::Free) {
            Bucket::Taken(_, page) => Some(page),
            Bucket::Free => None,
        }
    }
}

/// Pages by their numbers: a hash table of buckets for one page each, which the number's last byte tells, and a map for the
/// pages that found theirs taken. None is moved later.
#[derive(Drop)]
pub(crate) struct Pages {
    // none before the first page comes, and then 256
    buckets: Vec<Bucket>,
    overflow: BTreeMap<u64, Page>,
}

// The bucket of a page.
#[inline(always)]
fn bucket_of(k: u64) -> usize
    ensures { result ≡ k % 256 }
{
    k as usize % BUCKETS
}

impl Pages {
    /// No pages yet.
    pub(crate) fn new(alloc: Global) -> Self
        ensures { all_pages result ≡ [] }
    {
        Pages {
            buckets: Vec::new(alloc),
            overflow: BTreeMap::new(alloc),
        }
    }

    // The page with this number, if it stands in its bucket.
    #[inline(always)]
    fn near(&self, k: u64) -> Option<&Page>
        ensures value { option_copied result ≡ near_in self.now k }
    {
        match self.buckets.get(bucket_of(k)) {
            Some(bucket) => bucket.page(k),
            None => None,
        }
    }

    // Whether it stands there.
    #[inline(always)]
    fn is_near(&self, k: u64) -> bool
        ensures { result ≡ is_some (near_in self.now k) }
    {
        self.near(k).is_some()
    }

    /// The page with this number.
    #[inline(always)]
    pub(crate) fn get(&self, k: u64) -> Option<&Page>
        ensures value { option_copied result ≡ page_said (all_pages self.now) k }
    {
        match self.near(k) {
            Some(page) => Some(page),
            None => self.overflow.get(&k),
        }
    }

    // The same for writing, where it is known to stand there.
    #[inline(always)]
    fn near_mut(&mut self, k: u64) -> &mut Page
        requires { IsSome (near_in self.old k) }
        ensures* writes_back { sem 𝓛 (LendsNear self.entry k result) }
        ensures value { near_in self.old k ≡ Some result.now }
    {
        self.buckets[bucket_of(k)].page_mut(k)
    }

    /// The page with this number, for writing.
    #[inline(always)]
    pub(crate) fn get_mut(&mut self, k: u64) -> Option<&mut Page>
        ensures* writes_back { sem 𝓛 (LendsPage self.entry k result) }
        ensures value { option_copied_mut result ≡ page_said (all_pages self.old) k }
    {
        if self.is_near(k) {
            Some(self.near_mut(k))
        } else {
            self.overflow.get_mut(&k)
        }
    }

    // There are buckets from here on.
    fn make_buckets(&mut self) -> Result<(), NoMemory>
        ensures { all_pages self.new ≡ all_pages self.old }
    {
        while self.buckets.len() < BUCKETS {
            self.buckets.push(Bucket::Free)?;
        }
        Ok(())
    }

    // Whether the bucket of this number is there, and nothing stands in it.
    fn is_free(&self, k: u64) -> bool
        ensures within { IsTrue result → k % 256 < length self.now.buckets.items }
        ensures free { IsTrue result → slice_index_or self.now.buckets.items (k % 256) Free ≡ Free }
    {
        match self.buckets.get(bucket_of(k)) {
            Some(bucket) => bucket.is_free(),
            None => false,
        }
    }

    /// A page for a number that has none; unchanged where there is no memory.
    pub(crate) fn insert(&mut self, k: u64, page: Page) -> Result<(), NoMemory>
        requires { page_said (all_pages self.old) k ≡ None }
        ensures ok { OnOk result (SaysAt (all_pages self.old) (all_pages self.new) k (Some page)) }
        ensures err { OnErr result (all_pages self.new ≡ all_pages self.old) }
    {
        self.make_buckets()?;
        if self.is_free(k) {
            self.buckets[bucket_of(k)].fill(k, page);
            return Ok(());
        }
        self.overflow.insert(k, page)?;
        Ok(())
    }

    /// No page has this number from here on.
    pub(crate) fn remove(&mut self, k: u64) -> Option<Page>
        ensures value { result ≡ page_said (all_pages self.old) k }
        ensures updates { SaysAt (all_pages self.old) (all_pages self.new) k None }
    {
        let farther = self.overflow.remove(&k);
        if self.is_near(k) {
            return self.buckets[bucket_of(k)].take();
        }
        farther
    }
}
