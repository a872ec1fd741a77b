use crate::tests::chips::{BLANK, counts, running};
use bench::{BenchChip, Plan};
use scan::Refusal;
use std::test::Fail;
use store::{Answer, Call, Object, Store};

fn answers(store: &mut Store<BenchChip>, call: Call<'_>, answer: Answer) -> bool {
    store.make(&call) == answer
}

fn refuses(store: &mut Store<BenchChip>, call: Call<'_>, why: Refusal) -> bool {
    answers(store, call, Answer::Refused(why))
}

// A call that does not name an open file, on a blank chip: a collect is refused with 28 there.
#[test]
fn each_call(rt: HostRuntime) -> Result<(), Fail> {
    let mut store = running(rt.alloc(), &BLANK, Plan::default())?;
    let one = Answer::Counted(counts(1, 0));
    let (object, name) = (257, b"a");
    assert!(rt; refuses(&mut store, Call::Collect, Refusal::NothingToClean));
    assert!(rt; answers(&mut store, Call::Create { object, name }, one));
    assert!(rt; answers(&mut store, Call::Open { object }, Answer::Granted));
    assert!(rt; refuses(&mut store, Call::Open { object }, Refusal::IsOpen));
    assert!(rt; answers(&mut store, Call::Mount, Answer::Granted));
    assert!(rt; answers(&mut store, Call::Delete { object }, one));
    assert!(rt;
        refuses(
            &mut store,
            Call::Rename { object: 256, name },
            Refusal::BadObject
        )
    );
    Ok(())
}

// The calls of an open file; and then a collect: block 0 has the header and chunk 1 to copy.
#[test]
fn each_call_of_a_file(rt: HostRuntime) -> Result<(), Fail> {
    let mut store = running(rt.alloc(), &BLANK, Plan::default())?;
    let one = Answer::Counted(counts(1, 0));
    let file = Object::try_from(257)?;
    let bytes = b"bytes";
    store.create(257, b"a")?;
    assert!(rt; answers(&mut store, Call::Open { object: 257 }, Answer::Granted));
    assert!(rt;
        answers(
            &mut store,
            Call::Put {
                file,
                number: 1,
                bytes
            },
            one
        )
    );
    assert!(rt;
        answers(
            &mut store,
            Call::Put {
                file,
                number: 2,
                bytes
            },
            one
        )
    );
    assert!(rt; answers(&mut store, Call::Cut { file, length: 1 }, one));
    assert!(rt; answers(&mut store, Call::Close { file }, Answer::Granted));
    assert!(rt; refuses(&mut store, Call::Close { file }, Refusal::NotOpen));
    assert!(rt;
        answers(
            &mut store,
            Call::Rename {
                object: 257,
                name: b"bc"
            },
            one
        )
    );
    let cleaned = Answer::Collected {
        block: 0,
        copies: 2,
    };
    assert!(rt; answers(&mut store, Call::Collect, cleaned));
    assert_eq!(rt; Object::try_from(256), Err(Refusal::BadObject));
    assert_eq!(rt; file.number(), 257);
    Ok(())
}
