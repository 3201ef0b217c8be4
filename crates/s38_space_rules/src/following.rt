//! How the room of a store follows a step.
ghost use Rattle.std.specs.Prelude.{◌≡◌, ◌+◌, ◌≤◌, All, length};
ghost use Rattle.std.specs.List.{flat_map, list_any};
ghost use Rattle.std.specs.Option.{ForSome, option_copied};
ghost use Rattle.s38_space_map.specs.Forcings.{all_forced, forced_as};
ghost use Rattle.s38_rules.specs.store.Forcing.{extent_after, is_whole};
ghost use Rattle.s38_rules.specs.store.Storable.{IsStorable};
ghost use Rattle.s38_rules.specs.store.Storing.{extents_of, room_after};
ghost use Rattle.s38_space_rules.specs.Following.{FitsBut, followed_by, followed_one, kept_extent, with_anew, with_kept};

use crate::extent::{extent_of, extent_with_rows};
use s38_base::ObjNum;
use s38_objects::Objects;
use s38_rules::Object;
use s38_space_map::{Extent, Forcing, Forcings, Room};

fn is_whole(number: ObjNum, one: Forcing) -> bool
    ensures { result ≡ is_whole number.0 (forced_as one) }
{
    match one {
        Forcing::Whole(other) => other.0 == number.0,
        _ => false,
    }
}

/// All of an object must persist.
pub fn is_kept_whole(all: &[Forcing], number: ObjNum) -> bool
    ensures { result ≡ list_any (is_whole number.0) (all_forced all.now) }
{
    match all {
        [] => false,
        [one, more @ ..] => is_whole(number, *one) || is_kept_whole(more, number),
    }
}

/// The extent of an object after a step that forces this.
fn extent_after(all: &[Forcing], old: Option<Extent>, object: &Object) -> Extent
    requires { IsStorable object.now }
    ensures { result ≡ extent_after (all_forced all.now) old object.now }
{
    if is_kept_whole(all, object.number) {
        extent_of(object)
    } else {
        extent_with_rows(object, old)
    }
}

fn kept_extent(all: &[Forcing], old: Option<Extent>, object: Option<&Object>) -> Option<Extent>
    requires { ForSome (option_copied object) IsStorable }
    ensures { result ≡ kept_extent (all_forced all.now) old (option_copied object.entry) }
{
    match object {
        None => None,
        Some(object) => {
            if object.on_disk {
                Some(extent_after(all, old, object))
            } else {
                None
            }
        }
    }
}

/// Puts the extent of a number, or takes it out.
fn put_extent(room: &mut Room, number: ObjNum, kept: Option<Extent>)
    requires { 1 ≤ room.old.spare }
    ensures extents { room.new.room.extents ≡ with_kept number.0 kept room.old.room.extents }
    ensures parts { room.new.room.parts ≡ room.old.room.parts }
    ensures spare { room.old.spare ≤ room.new.spare + 1 }
{
    match kept {
        None => room.take_out(number),
        Some(extent) => room.put(extent),
    }
}

/// The extent of a number is as it is after the step.
fn follow_at(room: &mut Room, all: &[Forcing], objects: &Objects, number: ObjNum)
    requires spare { 1 ≤ room.old.spare }
    requires storable { All IsStorable objects.now.objects }
    ensures extents { room.new.room.extents ≡ with_anew (all_forced all.now) objects.now.objects number.0 room.old.room.extents }
    ensures parts { room.new.room.parts ≡ room.old.room.parts }
    ensures spare { room.old.spare ≤ room.new.spare + 1 }
{
    let old = room.extent(number);
    let kept = kept_extent(all, old, objects.get(number));
    put_extent(room, number, kept);
}

/// The room follows one thing that must persist.
fn follow_one(room: &mut Room, all: &[Forcing], objects: &Objects, one: Forcing)
    requires spare { 1 ≤ room.old.spare }
    requires storable { All IsStorable objects.now.objects }
    ensures extents { room.new.room.extents ≡ followed_one (all_forced all.now) objects.now.objects (forced_as one) room.old.room.extents }
    ensures parts { room.new.room.parts ≡ room.old.room.parts }
    ensures spare { room.old.spare ≤ room.new.spare + 1 }
{
    match one {
        Forcing::Ceiling => {}
        Forcing::Header(number) | Forcing::Whole(number) | Forcing::Removed(number) => {
            follow_at(room, all, objects, number);
        }
    }
}

/// The room follows some of what must persist.
fn follow_each(room: &mut Room, all: &[Forcing], objects: &Objects, some: &[Forcing])
    requires spare { length some.now ≤ room.old.spare }
    requires storable { All IsStorable objects.now.objects }
    ensures extents { room.new.room.extents ≡ followed_by (all_forced all.now) objects.now.objects (all_forced some.now) room.old.room.extents }
    ensures parts { room.new.room.parts ≡ room.old.room.parts }
{
    match some {
        [] => {}
        [one, more @ ..] => {
            follow_one(room, all, objects, *one);
            follow_each(room, all, objects, more);
        }
    }
}

/// The room is that after a step of which all this must persist.
fn follow_all(room: &mut Room, all: &[Forcing], objects: &Objects)
    requires spare { length all.now ≤ room.old.spare }
    requires storable { All IsStorable objects.now.objects }
    requires fits { FitsBut (all_forced all.now) room.old.room.extents objects.now }
    ensures extents { room.new.room.extents ≡ flat_map (extents_of (all_forced all.now) room.old.room.extents) objects.now.objects }
    ensures parts { room.new.room.parts ≡ room.old.room.parts }
{
    // Their contracts say that numbers rise.
    let _count = objects.len();
    let _kept = room.count();
    follow_each(room, all, objects, all);
}

/// The room is that after a step of which this must persist and which leads to these objects, where it fits all others
/// of them. Its memory is reserved: it takes that of one extent for each thing that must persist. It takes time that
/// grows with the number of objects that the store keeps.
pub fn follow(room: &mut Room, forced: &Forcings, objects: &Objects)
    requires spare { length forced.now ≤ room.old.spare }
    requires storable { All IsStorable objects.now.objects }
    requires fits { FitsBut forced.now room.old.room.extents objects.now }
    ensures { room.new.room ≡ room_after room.old.room forced.now objects.now.objects }
{
    follow_all(room, forced.as_slice(), objects);
}
