// Which member of a structure or union has a name.
ghost use Rattle.std.specs.Prelude.{◌≡◌, ◌<◌, IsTrue, Some, length};
ghost use Rattle.pv_types.specs.Formed.{members_in, NamesDiffer};
ghost use Rattle.pv_types.specs.Numbers.{number_of};

use crate::NoMemory;
use crate::terms::Member;
use crate::types::Types;
use indexmap::IndexMap;

/// So few members are searched as fast as one is looked up.
const FEW: usize = 8;

/// A name in the name space of one structure or union (C17 6.2.3p1).
#[derive(Clone, Copy, PartialEq, Eq, Hash)]
pub(crate) struct MemberName {
    pub(crate) tag: u32,
    pub(crate) name: u32,
}

/// Keeps the numbers of a tag's members by their names, where there are more than a few.
pub(crate) fn keep_numbers(
    numbers: &mut IndexMap<MemberName, u64>,
    tag: u32,
    members: &[Member],
) -> Result<(), NoMemory> {
    if members.len() > FEW {
        for place in 0..members.len() {
            let name = members[place].name;
            numbers.insert(MemberName { tag, name }, place as u64)?;
        }
    }
    Ok(())
}

/// Whether the member of this number is there and has the name.
fn is_named(members: &[Member], number: u64, name: u32) -> bool
    requires { NamesDiffer members.now }
    ensures { IsTrue result → number_of name members.now ≡ Some number }
{
    let place = number as usize;
    if place < members.len() {
        members[place].name == name
    } else {
        false
    }
}

/// The first member of the name, member by member.
fn first_named(members: &[Member], name: u32) -> Option<u64>
    ensures { result ≡ number_of name members.now }
{
    for place in 0..members.len() {
        if members[place].name == name {
            return Some(place as u64);
        }
    }
    None
}

impl Types {
    /// The number of the member of this name, from 0, in a structure or union (C17 6.5.2.3p3); none where no member
    /// has the name, as where the tag is not completed.
    ///
    /// Where a type was interned after the tag was completed, the time to find a member does not grow with the number
    /// of its members.
    pub fn member_named(&self, tag: u32, name: u32) -> Option<u64>
        requires { tag < length self.now.tags }
        ensures { result ≡ number_of name (members_in self.now.done tag) }
    {
        let members = self.members(tag);
        if let Some(number) = self.kept_number(MemberName { tag, name }) {
            if is_named(members, number, name) {
                return Some(number);
            }
        }
        first_named(members, name)
    }
}
