//! Sessions in threads: worked scripts, amounts that are moved, and the core afterwards.
ghost use Rattle.std.specs.Prelude.{◌≡◌};

use shared_cases::{
    Trouble, Way, again, cut, in_two_threads, one_waits, replies_to, store_with, sums_after,
    two_wait,
};
use std::alloc::Global;
use std::sync::Wait;
use std::thread::Threads;

const BEGIN: &str = "{\"s\":64,\"call\":\"begin\"}";

const COMMIT: &str = "{\"s\":64,\"call\":\"commit\"}";

const CREATE_FIVE: &str =
    "{\"s\":64,\"call\":\"create\",\"name\":\"x\",\"tree\":[\"a\",[\"b\"],[\"b\"],[\"b\"],[\"b\"],[\"b\"]]}";

const CREATE_ONE: &str = "{\"s\":64,\"call\":\"create\",\"name\":\"x\",\"tree\":[\"a\",[\"b\"]]}";

const BEGIN_1: &str = "{\"s\":1,\"call\":\"begin\"}";

const BEGIN_2: &str = "{\"s\":2,\"call\":\"begin\"}";

const COMMIT_1: &str = "{\"s\":1,\"call\":\"commit\"}";

const COMMIT_2: &str = "{\"s\":2,\"call\":\"commit\"}";

const CHILDREN_1: &str = "{\"s\":1,\"call\":\"children\",\"at\":\"1.1001.1001\"}";

const CHILDREN_64: &str = "{\"s\":64,\"call\":\"children\",\"at\":\"1.1001.1001\"}";

const CHILDREN_3: &str = "{\"s\":3,\"call\":\"children\",\"at\":\"1.1001.1001\"}";

const BELOW_1: &str = "{\"s\":1,\"call\":\"children\",\"at\":\"1.1001.1001.1001\"}";

const BEGIN_3: &str = "{\"s\":3,\"call\":\"begin\"}";

const COMMIT_3: &str = "{\"s\":3,\"call\":\"commit\"}";

const APPEND_3: &str = "{\"s\":3,\"call\":\"append\",\"at\":\"1.1001.1001.1001\",\"tree\":[\"c\"]}";

/// The ends of replies that have to wait.
const BY_2: &str = "\"by\":[2],\"on\":\"node 1.1001\"}}\n";

const BY_2_AND_3: &str = "\"by\":[2,3],\"on\":\"node 1.1001\"}}\n";

const APPEND_2: &str = "{\"s\":2,\"call\":\"append\",\"at\":\"1.1001.1001\",\"tree\":[\"c\"]}";

const INSERT_1: &str =
    "{\"s\":1,\"call\":\"insert\",\"at\":\"1.1001.1001\",\"before\":\"1.1001.1001.1003\",\"tree\":[\"p\"]}";

const INSERT_2: &str =
    "{\"s\":2,\"call\":\"insert\",\"at\":\"1.1001.1001\",\"before\":\"1.1001.1001.1007\",\"tree\":[\"q\"]}";

/// Two sessions insert beside each other in threads, and a third that met both asks for all: the three texts.
fn insert_in_two_threads<R: Threads + Wait + Sync>(
    rt: &R,
    alloc: Global,
) -> Result<(String, String, String), Trouble> {
    let (store, mut third) = store_with(rt, alloc, &[BEGIN, CREATE_FIVE, COMMIT])?;
    let one = cut(&store, &mut third, 1);
    let two = cut(&store, &mut third, 2);
    let ((mut one, first), (mut two, second)) = in_two_threads(
        rt,
        alloc,
        &store,
        one,
        two,
        Way::Once,
        &[BEGIN_1, INSERT_1, COMMIT_1],
        &[BEGIN_2, INSERT_2, COMMIT_2],
    );
    third.meet(&store, &mut one);
    third.meet(&store, &mut two);
    let all = replies_to(
        rt,
        alloc,
        &store,
        &mut third,
        Way::Once,
        &[BEGIN, CHILDREN_64],
    );
    three_of(first, second, all)
}

fn three_of(
    first: Result<String, Trouble>,
    second: Result<String, Trouble>,
    third: Result<String, Trouble>,
) -> Result<(String, String, String), Trouble> {
    Ok((first?, second?, third?))
}

#[test]
fn two_threads_insert_and_a_third_session_reads_both(rt: HostRuntime) {
    let Ok((first, second, all)) = insert_in_two_threads(&rt, rt.alloc()) else {
        panic!(rt; "no memory");
    };
    let early = first.as_str()
        == "{\"ok\":1,\"s\":1}\n{\"ok\":\"1.1001.1001.1002.1001\",\"s\":1}\n{\"ok\":2,\"s\":1}\n"
        && second.as_str()
            == "{\"ok\":1,\"s\":2}\n{\"ok\":\"1.1001.1001.1006.1001\",\"s\":2}\n{\"ok\":3,\"s\":2}\n";
    let late = first.as_str()
        == "{\"ok\":1,\"s\":1}\n{\"ok\":\"1.1001.1001.1002.1001\",\"s\":1}\n{\"ok\":3,\"s\":1}\n"
        && second.as_str()
            == "{\"ok\":1,\"s\":2}\n{\"ok\":\"1.1001.1001.1006.1001\",\"s\":2}\n{\"ok\":2,\"s\":2}\n";
    assert!(rt; early || late);
    assert_eq!(rt;
        all.as_str(),
        "{\"ok\":2,\"s\":64}\n{\"ok\":[\"1.1001.1001.1001\",\"1.1001.1001.1002.1001\",\"1.1001.1001.1003\",\"1.1001.1001.1005\",\"1.1001.1001.1006.1001\",\"1.1001.1001.1007\",\"1.1001.1001.1009\"],\"s\":64}\n"
    );
}

/// Puts a reply behind others; nothing where there is none.
fn say(text: &mut String, said: Result<String, Trouble>) {
    if let Ok(said) = said {
        let _put = text.push_str(&said);
    }
}

/// What two sessions reply where the second has to wait, which is tried again before and after the first commits.
fn wait_and_try_again<R: Wait>(rt: &R, alloc: Global) -> Result<String, Trouble> {
    let (store, mut rest) = store_with(rt, alloc, &[BEGIN, CREATE_ONE, COMMIT])?;
    let mut one = cut(&store, &mut rest, 1);
    let mut two = cut(&store, &mut rest, 2);
    let mut text = String::new(alloc);
    say(
        &mut text,
        replies_to(
            rt,
            alloc,
            &store,
            &mut one,
            Way::Once,
            &[BEGIN_1, CHILDREN_1],
        ),
    );
    say(
        &mut text,
        replies_to(rt, alloc, &store, &mut two, Way::Once, &[BEGIN_2, APPEND_2]),
    );
    say(&mut text, again(rt, alloc, &store, &mut two));
    say(
        &mut text,
        replies_to(rt, alloc, &store, &mut one, Way::Once, &[COMMIT_1]),
    );
    say(&mut text, again(rt, alloc, &store, &mut two));
    say(&mut text, again(rt, alloc, &store, &mut two));
    Ok(text)
}

#[test]
fn a_call_that_waits_is_answered_once_the_other_commits(rt: HostRuntime) {
    let Ok(text) = wait_and_try_again(&rt, rt.alloc()) else {
        panic!(rt; "no memory");
    };
    assert_eq!(rt;
        text.as_str(),
        "{\"ok\":1,\"s\":1}\n{\"ok\":[\"1.1001.1001.1001\"],\"s\":1}\n{\"ok\":1,\"s\":2}\n{\"s\":2,\"wait\":{\"asks\":\"CX\",\"by\":[1],\"on\":\"node 1.1001.1001\"}}\n{\"s\":2,\"wait\":{\"asks\":\"CX\",\"by\":[1],\"on\":\"node 1.1001.1001\"},\"woke\":true}\n{\"ok\":2,\"s\":1}\n{\"ok\":\"1.1001.1001.1003\",\"s\":2,\"woke\":true}\nno call waits\n"
    );
}

/// The replies of two sessions in threads, where a call of the second waits for the first, which goes on once it does.
fn wait_in_a_thread<R: Threads + Wait + Sync>(
    rt: &R,
    alloc: Global,
    lines: &[&str],
) -> Result<(String, String), Trouble> {
    let (store, mut rest) = store_with(rt, alloc, &[BEGIN, CREATE_ONE, COMMIT])?;
    let mut one = cut(&store, &mut rest, 1);
    let two = cut(&store, &mut rest, 2);
    let probe = cut(&store, &mut rest, 4);
    let _replies = replies_to(
        rt,
        alloc,
        &store,
        &mut one,
        Way::Once,
        &[BEGIN_1, CHILDREN_1],
    );
    let (first, second) = one_waits(
        rt,
        alloc,
        &store,
        one,
        two,
        probe,
        BY_2,
        (lines, &[BEGIN_2, APPEND_2, COMMIT_2]),
    );
    two_of(first, second)
}

fn two_of(
    first: Result<String, Trouble>,
    second: Result<String, Trouble>,
) -> Result<(String, String), Trouble> {
    Ok((first?, second?))
}

/// The second's call was attempted and waits before the first commits, which with each number of calls comes at another moment of the wait: as it lies down, or while it sleeps.
#[test]
fn a_call_in_a_thread_waits_for_the_other_s_commit(rt: HostRuntime) {
    for round in 0usize..60 {
        let lines: &[&str] = match round % 3 {
            0 => &[COMMIT_1],
            1 => &[CHILDREN_1, COMMIT_1],
            _ => &[CHILDREN_1, CHILDREN_1, CHILDREN_1, CHILDREN_1, COMMIT_1],
        };
        let Ok((first, second)) = wait_in_a_thread(&rt, rt.alloc(), lines) else {
            panic!(rt; "no memory");
        };
        assert!(rt; first.as_str().ends_with("{\"ok\":2,\"s\":1}\n"));
        assert_eq!(rt;
            second.as_str(),
            "{\"ok\":1,\"s\":2}\n{\"ok\":\"1.1001.1001.1003\",\"s\":2}\n{\"ok\":3,\"s\":2}\n"
        );
    }
}

/// The replies of three sessions in threads: the second's call waits for the first and the third, and the third's for the first, which commits once both wait.
fn wait_in_two_threads<R: Threads + Wait + Sync>(
    rt: &R,
    alloc: Global,
) -> Result<(String, String, String), Trouble> {
    let (store, mut rest) = store_with(rt, alloc, &[BEGIN, CREATE_ONE, COMMIT])?;
    let mut one = cut(&store, &mut rest, 1);
    let two = cut(&store, &mut rest, 2);
    let mut three = cut(&store, &mut rest, 3);
    let probe = cut(&store, &mut rest, 4);
    let _replies = replies_to(
        rt,
        alloc,
        &store,
        &mut one,
        Way::Once,
        &[BEGIN_1, CHILDREN_1, BELOW_1],
    );
    let _replies = replies_to(
        rt,
        alloc,
        &store,
        &mut three,
        Way::Once,
        &[BEGIN_3, CHILDREN_3],
    );
    let (first, (second, third)) = two_wait(
        rt,
        alloc,
        &store,
        (one, two, three),
        probe,
        BY_2_AND_3,
        (
            &[COMMIT_1],
            &[BEGIN_2, APPEND_2, COMMIT_2],
            &[APPEND_3, COMMIT_3],
        ),
    );
    three_of(first, second, third)
}

/// Where the first's commit woke one of them alone, and that was the second, which is barred as before, all would sleep for ever.
#[test]
fn a_commit_wakes_all_whose_calls_wait(rt: HostRuntime) {
    for _ in 0..40 {
        let Ok((first, second, third)) = wait_in_two_threads(&rt, rt.alloc()) else {
            panic!(rt; "no memory");
        };
        assert_eq!(rt; first.as_str(), "{\"ok\":2,\"s\":1}\n");
        assert_eq!(rt;
            third.as_str(),
            "{\"ok\":\"1.1001.1001.1001.1001\",\"s\":3}\n{\"ok\":3,\"s\":3}\n"
        );
        assert_eq!(rt;
            second.as_str(),
            "{\"ok\":1,\"s\":2}\n{\"ok\":\"1.1001.1001.1003\",\"s\":2}\n{\"ok\":4,\"s\":2}\n"
        );
    }
}

#[test]
fn eight_threads_move_amounts_and_lose_none(rt: HostRuntime) {
    // The book is judged by a plain model, which leaves the same sum.
    assert_eq!(rt;
        sums_after(&rt, rt.alloc(), 8, 1_000).ok(),
        Some((80_000_000, 8_001, Some(80_000_000)))
    );
}
