//! What torn operations lead to, as an independent model has it.
use crate::common::{rules_named, same_at};
use mc_explore::{Expectation, Kind, Line, Start};
use mc_fixtures::{FIRST_IMAGE, SECOND_IMAGE, worked};
use mc_flash::JournalFlash;
use mc_tears::{Asked, Erasing, Loss, Reading, find_losses, flash_after, write_lost, write_tears};
use std::alloc::Global;
use std::rt::HostRuntime;

#[test]
fn rows(rt: HostRuntime) {
    let alloc = rt.alloc();
    let layout = worked().expect(&rt, "a layout");
    for (name, kind, erasing, all, wanted) in [
        (
            "call1",
            Kind::Perm,
            Erasing::Gentle,
            true,
            "operations 19\ncases 27\n1 data boot perm 19 2.0.0+0/80 1.0.0+0/80 none rest\n2 image-ok=unset boot perm 19 2.0.0+0/80 1.0.0+0/80 none rest\n2 image-ok=bad boot perm 19 2.0.0+0/80 1.0.0+0/80 none rest\n3 data boot perm 19 2.0.0+0/80 1.0.0+0/80 none rest\n4 magic=unset boot perm 19 2.0.0+0/80 1.0.0+0/80 none rest\n4 magic=bad boot perm 19 2.0.0+0/80 1.0.0+0/80 none rest\n5 magic=good,image-ok=set boot perm 19 2.0.0+0/80 1.0.0+0/80 none rest\n5 magic=good,image-ok=unset boot test 18 2.0.0+0/80 1.0.0+0/80 revert rest\n5 magic=good,image-ok=bad boot none 0 1.0.0+0/80 2.0.0+0/80 none busy\n5 magic=unset,image-ok=set boot perm 14 2.0.0+0/80 1.0.0+0/80 none rest\n5 magic=unset,image-ok=bad boot perm 14 2.0.0+0/80 1.0.0+0/80 none rest\n5 magic=bad,image-ok=set boot perm 14 2.0.0+0/80 1.0.0+0/80 none rest\n5 magic=bad,image-ok=unset boot perm 14 2.0.0+0/80 1.0.0+0/80 none rest\n5 magic=bad,image-ok=bad boot perm 14 2.0.0+0/80 1.0.0+0/80 none rest\n7 data boot perm 14 2.0.0+0/80 1.0.0+0/80 none rest\n9 entry=unset boot perm 14 2.0.0+0/80 1.0.0+0/80 none rest\n9 entry=written boot perm 9 2.0.0+0/80 1.0.0+0/80 none rest\n10 data boot perm 9 2.0.0+0/80 1.0.0+0/80 none rest\n11 data boot perm 9 2.0.0+0/80 1.0.0+0/80 none rest\n13 entry=unset boot perm 9 2.0.0+0/80 1.0.0+0/80 none rest\n13 entry=written boot perm 5 2.0.0+0/80 1.0.0+0/80 none rest\n14 data boot perm 5 2.0.0+0/80 1.0.0+0/80 none rest\n15 data boot perm 5 2.0.0+0/80 1.0.0+0/80 none rest\n17 entry=unset boot perm 5 2.0.0+0/80 1.0.0+0/80 none rest\n17 entry=written boot perm 1 2.0.0+0/80 1.0.0+0/80 none rest\n18 copy-done=unset boot perm 1 2.0.0+0/80 1.0.0+0/80 none rest\n18 copy-done=bad boot none 0 2.0.0+0/80 1.0.0+0/80 none rest\n",
        ),
        (
            "call1",
            Kind::Test,
            Erasing::Rough,
            false,
            "operations 18\ncases 51\n4 magic=good,image-ok=set boot perm 19 2.0.0+0/80 1.0.0+0/80 none rest\n4 magic=good,image-ok=bad boot none 0 1.0.0+0/80 2.0.0+0/80 none busy\n17 copy-done=bad boot none 0 2.0.0+0/80 1.0.0+0/80 none rest\n",
        ),
        (
            "unit1",
            Kind::Revert,
            Erasing::Rough,
            false,
            "operations 115\ncases 98\n0 magic=good,image-ok=unset boot test 109 2.0.0+0/80 1.0.0+0/80 revert rest\n0 magic=good,image-ok=bad boot none 0 1.0.0+0/80 2.0.0+0/80 none rest\n0 magic=bad,image-ok=set boot none 0 1.0.0+0/80 2.0.0+0/80 none rest\n0 magic=bad,image-ok=unset boot none 0 1.0.0+0/80 2.0.0+0/80 none rest\n0 magic=bad,image-ok=bad boot none 0 1.0.0+0/80 2.0.0+0/80 none rest\n11 magic=good,image-ok=unset boot test 109 2.0.0+0/80 1.0.0+0/80 revert rest\n11 magic=good,image-ok=bad boot none 0 1.0.0+0/80 2.0.0+0/80 none busy\n",
        ),
    ] {
        let (a, b) = (&FIRST_IMAGE, &SECOND_IMAGE);
        let start = Start::from_images(alloc, &layout, kind, a, b).expect(&rt, "a start");
        let start = start.with_rules(rules_named(name));
        let asked = Asked {
            erasing,
            all,
            expectation: Expectation::any(),
        };
        let mut out = Vec::new(alloc);
        let _right = write_tears::<JournalFlash, Vec<u8>>(alloc, &start, &asked, &mut out).expect(
            &rt, "tears",
        );
        let text = std::str::from_utf8(out.as_slice()).expect(&rt, "a text");
        same_at(&rt, &name, &text, &wanted);
    }
}

#[test]
fn readings(rt: HostRuntime) {
    for text in [
        "magic=good,image-ok=bad",
        "copy-done=unset,entry=written",
        "data",
    ] {
        let reading = Reading::read(text).expect(&rt, "a reading");
        let mut line = Line::new();
        reading.put_into(&mut line);
        same_at(&rt, &text, &line.as_str(), &text);
    }
    for text in [
        "",
        "magic=Good",
        "image-ok=bad,magic=good",
        "data,entry=unset",
    ] {
        same_at(&rt, &text, &Reading::read(text).is_some(), &false);
    }
}

#[test]
fn flashes(rt: HostRuntime) {
    let alloc = rt.alloc();
    let layout = worked().expect(&rt, "a layout");
    let start = Start::from_images(alloc, &layout, Kind::Perm, &FIRST_IMAGE, &SECOND_IMAGE);
    let start = start.expect(&rt, "a start");
    for (operation, text, is_there) in [
        (5, "magic=good,image-ok=bad", true),
        (5, "magic=good", false),
        (19, "data", false),
    ] {
        let within = Some(Reading::read(text).expect(&rt, "a reading"));
        let loss = Loss { operation, within };
        let found = flash_after::<JournalFlash>(alloc, &start, Erasing::Gentle, &loss);
        same_at(
            &rt,
            &text,
            &found.expect(&rt, "memory").is_some(),
            &is_there,
        );
    }
}

/// How many flashes any number of losses leaves.
#[test]
fn distinct(rt: HostRuntime) {
    let alloc = rt.alloc();
    let layout = worked().expect(&rt, "a layout");
    for (name, kind, erasing, count) in [
        ("call1", Kind::None, Erasing::Rough, 1),
        ("call1", Kind::Test, Erasing::Gentle, 42),
        ("call1", Kind::Perm, Erasing::Gentle, 106),
        ("call1", Kind::Revert, Erasing::Gentle, 191),
        ("call1", Kind::Test, Erasing::Rough, 528),
        ("call3", Kind::Revert, Erasing::Gentle, 203),
        ("unit1", Kind::Perm, Erasing::Gentle, 240),
    ] {
        let (a, b) = (&FIRST_IMAGE, &SECOND_IMAGE);
        let start = Start::from_images(alloc, &layout, kind, a, b).expect(&rt, "a start");
        let start = start.with_rules(rules_named(name));
        let found = find_losses::<JournalFlash>(alloc, &start, erasing, 16).expect(&rt, "memory");
        same_at(&rt, &name, &found.cases.len(), &count);
        same_at(&rt, &name, &found.whole, &true);
    }
}
