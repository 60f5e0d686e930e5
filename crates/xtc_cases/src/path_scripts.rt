//! Scripts of sessions that ask for paths. What is found, refused and waited for is worked by hand from docs/PROFILE.md, "Paths", "Requests of calls" and
//! "Lock modes".
use crate::scripts::Row;

/// Paths find what is committed and what their transaction has placed, and keep what they find to its end.
pub const PATH_SCRIPTS: &[Row<'static>] = &[
    // A path that finds nothing is kept: whoever would make it find something waits until its transaction ends.
    Row {
        tree: r#"["a",["b",{"k":"1"}],["b",{"k":"2"}]]"#,
        script: r#"
{"s":1,"call":"begin"}
 {"ok":2,"s":1}
{"s":2,"call":"begin"}
 {"ok":1,"s":2}
{"s":1,"call":"find","at":"1.1001","path":"//b[@@k='1'][2]"}
 {"ok":[],"s":1}
{"s":2,"call":"set_attr","at":"1.1001.1001.1003","name":"k","value":"1"}
 {"s":2,"wait":{"asks":"IX","by":[1],"on":"node 1.1001"}}
{"s":1,"call":"find","at":"1.1001","path":"//b[@@k='1'][2]"}
 {"ok":[],"s":1}
{"s":1,"call":"commit"}
 {"ok":2,"s":1}
 {"ok":null,"s":2,"woke":true}
{"s":2,"call":"commit"}
 {"ok":3,"s":2}
"#,
        then: r#"
{"s":1,"call":"begin"}
 {"ok":1,"s":1}
{"s":1,"call":"find","at":"1.1001","path":"//b[@@k='1'][2]"}
 {"ok":["1.1001.1001.1003"],"s":1}
"#,
    },
    // Places are counted along the axis, and what is found stands in document order, each once.
    Row {
        tree: r#"["a",["b"],["c"],"x","y",["d"]]"#,
        script: r#"
{"s":1,"call":"begin"}
 {"ok":2,"s":1}
{"s":1,"call":"find","at":"1.1001.1001.1009","path":"preceding-sibling::*[1]"}
 {"ok":["1.1001.1001.1003"],"s":1}
{"s":1,"call":"find","at":"1.1001.1001.1009","path":"preceding-sibling::node()[1]"}
 {"ok":["1.1001.1001.1007"],"s":1}
{"s":1,"call":"find","at":"1.1001.1001","path":"text()"}
 {"ok":["1.1001.1001.1005","1.1001.1001.1007"],"s":1}
{"s":1,"call":"find","at":"1.1001.1001.1009","path":"preceding-sibling::*"}
 {"ok":["1.1001.1001.1001","1.1001.1001.1003"],"s":1}
{"s":1,"call":"find","at":"1.1001","path":"//*/.."}
 {"ok":["1.1001","1.1001.1001"],"s":1}
{"s":1,"call":"find","at":"1.1001.1001.1005","path":"/"}
 {"ok":["1.1001"],"s":1}
"#,
        then: "",
    },
    // A transaction finds what it has placed itself. Another one waits for it, and then finds what was committed and no store had at its opening.
    Row {
        tree: r#"["a",["b"]]"#,
        script: r#"
{"s":1,"call":"begin"}
 {"ok":2,"s":1}
{"s":2,"call":"begin"}
 {"ok":1,"s":2}
{"s":1,"call":"append","at":"1.1001.1001","tree":["b",{"k":"v"}]}
 {"ok":"1.1001.1001.1003","s":1}
{"s":1,"call":"find","at":"1.1001","path":"//b"}
 {"ok":["1.1001.1001.1001","1.1001.1001.1003"],"s":1}
{"s":2,"call":"find","at":"1.1001","path":"//b/@@k"}
 {"s":2,"wait":{"asks":"SR","by":[1],"on":"node 1.1001"}}
{"s":1,"call":"commit"}
 {"ok":2,"s":1}
 {"ok":["1.1001.1001.1003/@@k"],"s":2,"woke":true}
{"s":1,"call":"begin"}
 {"ok":3,"s":1}
{"s":1,"call":"find","at":"1.1001","path":"//b[@@k]"}
 {"ok":["1.1001.1001.1003"],"s":1}
"#,
        then: r#"
{"s":1,"call":"begin"}
 {"ok":1,"s":1}
{"s":1,"call":"find","at":"1.1001.1001.1003","path":"@@k"}
 {"ok":["1.1001.1001.1003/@@k"],"s":1}
"#,
    },
    // What was aborted is found no more.
    Row {
        tree: r#"["a",["b"]]"#,
        script: r#"
{"s":1,"call":"begin"}
 {"ok":2,"s":1}
{"s":2,"call":"begin"}
 {"ok":1,"s":2}
{"s":1,"call":"rename","at":"1.1001.1001.1001","name":"c"}
 {"ok":null,"s":1}
{"s":1,"call":"find","at":"1.1001","path":"/a/c"}
 {"ok":["1.1001.1001.1001"],"s":1}
{"s":2,"call":"find","at":"1.1001","path":"/a/b"}
 {"s":2,"wait":{"asks":"LR","by":[1],"on":"node 1.1001.1001"}}
{"s":1,"call":"abort"}
 {"ok":null,"s":1}
 {"ok":["1.1001.1001.1001"],"s":2,"woke":true}
{"s":2,"call":"find","at":"1.1001","path":"/a/c"}
 {"ok":[],"s":2}
"#,
        then: "",
    },
    // Two sessions find the same children and append one each: a deadlock, as with `children`.
    Row {
        tree: r#"["a",["b"]]"#,
        script: r#"
{"s":1,"call":"begin"}
 {"ok":2,"s":1}
{"s":2,"call":"begin"}
 {"ok":1,"s":2}
{"s":1,"call":"find","at":"1.1001.1001","path":"b"}
 {"ok":["1.1001.1001.1001"],"s":1}
{"s":2,"call":"find","at":"1.1001.1001","path":"z"}
 {"ok":[],"s":2}
{"s":1,"call":"append","at":"1.1001.1001","tree":["b"]}
 {"s":1,"wait":{"asks":"CX","by":[2],"on":"node 1.1001.1001"}}
{"s":2,"call":"append","at":"1.1001.1001","tree":["z"]}
 {"deadlock":[2,1],"s":2}
 {"ok":"1.1001.1001.1003","s":1,"woke":true}
"#,
        then: "",
    },
    // A line is refused for its first reason, and only then asked of the session.
    Row {
        tree: r#"["a"]"#,
        script: r#"
{"s":1,"call":"find","at":"1.1001","path":"a"}
 {"err":{"name":"NoTransaction"},"s":1}
{"s":1,"call":"find","at":"1.1001","path":"count(//a)"}
 {"bad":"path Unsupported 5","line":5}
{"s":1,"call":"find","at":"1.1001","path":"//a["}
 {"bad":"path Syntax 4","line":6}
{"s":1,"call":"find","at":"1.1001","path":"//a[last() div 2]"}
 {"bad":"path Unsupported 11","line":7}
{"s":1,"call":"find","at":"1.1001","path":"a@51 [a@@51 ]@"}
 {"bad":"path Deep 101","line":8}
{"s":1,"call":"find","at":"1.1001","path":"a@50 [a@@50 ]@"}
 {"err":{"name":"NoTransaction"},"s":1}
{"s":1,"call":"find","at":"1.1001","path":""}
 {"bad":"path Syntax 0","line":10}
{"s":1,"call":"find","at":"1.1001","path":7}
 {"bad":"path","line":11}
{"s":1,"call":"find","at":"1.1001"}
 {"bad":"path","line":12}
{"s":1,"call":"find","at":"1","path":"//a["}
 {"bad":"at","line":13}
{"s":1,"call":"find","path":"//a["}
 {"bad":"at","line":14}
{"s":1,"call":"find","at":"1.1001","path":"//a[","name":"a"}
 {"bad":"path Syntax 4","line":15}
{"s":1,"call":"find","at":"1.1001","path":"//a","name":"a"}
 {"bad":"extra","line":16}
{"s":65,"call":"find","at":"1","path":"//a["}
 {"bad":"s","line":17}
{"s":1,"call":"finds","at":"1","path":"//a["}
 {"bad":"call","line":18}
{"s":1,"call":"begin"}
 {"ok":2,"s":1}
{"s":1,"call":"find","at":"1.1001.1001.1001","path":"//a"}
 {"err":{"code":8,"name":"NOT_FOUND_ERR"},"s":1}
{"s":1,"call":"find","at":"1.1003","path":"."}
 {"err":{"code":8,"name":"NOT_FOUND_ERR"},"s":1}
"#,
        then: "",
    },
];
