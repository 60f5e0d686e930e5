//! Scripts of several sessions, with the replies to each line, and what the store that is left answers then.
use crate::scripts::Row;

/// They wait, wake each other, end in deadlocks and are refused; what they place gets new labels.
pub const SESSION_SCRIPTS: &[Row<'static>] = &[
    // An append waits for the edge at which another session has seen no child. It is live at the end.
    Row {
        tree: r#"["a"]"#,
        script: r#"
{"s":1,"call":"begin"}
 {"ok":2,"s":1}
{"s":2,"call":"begin"}
 {"ok":1,"s":2}
{"s":1,"call":"first","at":"1.1001.1001"}
 {"ok":null,"s":1}
{"s":2,"call":"append","at":"1.1001.1001","tree":["b"]}
 {"s":2,"wait":{"asks":"EX","by":[1],"on":"first 1.1001.1001"}}
{"s":1,"call":"first","at":"1.1001.1001"}
 {"ok":null,"s":1}
{"s":2,"call":"first","at":"1.1001.1001"}
 {"err":{"name":"IsWaiting"},"s":2}
{"s":1,"call":"commit"}
 {"ok":2,"s":1}
 {"ok":"1.1001.1001.1001","s":2,"woke":true}
"#,
        then: r#"
{"s":1,"call":"begin"}
 {"ok":1,"s":1}
{"s":1,"call":"dump","at":"1.1001"}
 {"ok":["a"],"s":1}
{"s":1,"call":"commit"}
 {"ok":3,"s":1}
"#,
    },
    // A session that waits aborts, and its call is gone. The other one appends, and is live at the end.
    Row {
        tree: r#"["a"]"#,
        script: r#"
{"s":1,"call":"begin"}
 {"ok":2,"s":1}
{"s":64,"call":"begin"}
 {"ok":1,"s":64}
{"s":1,"call":"first","at":"1.1001.1001"}
 {"ok":null,"s":1}
{"s":64,"call":"append","at":"1.1001.1001","tree":["b"]}
 {"s":64,"wait":{"asks":"EX","by":[1],"on":"first 1.1001.1001"}}
{"s":64,"call":"abort"}
 {"ok":null,"s":64}
{"s":64,"call":"commit"}
 {"err":{"name":"NoTransaction"},"s":64}
{"s":1,"call":"append","at":"1.1001.1001","tree":["c"]}
 {"ok":"1.1001.1001.1001","s":1}
"#,
        then: r#"
{"s":2,"call":"begin"}
 {"ok":1,"s":2}
{"s":2,"call":"dump","at":"1.1001"}
 {"ok":["a"],"s":2}
{"s":2,"call":"commit"}
 {"ok":2,"s":2}
"#,
    },
    // Two sessions read a list of children, and a third one appends to it once both have committed.
    Row {
        tree: r#"["a",["b"]]"#,
        script: r#"
{"s":1,"call":"begin"}
 {"ok":2,"s":1}
{"s":2,"call":"begin"}
 {"ok":1,"s":2}
{"s":3,"call":"begin"}
 {"ok":1,"s":3}
{"s":1,"call":"children","at":"1.1001.1001"}
 {"ok":["1.1001.1001.1001"],"s":1}
{"s":2,"call":"children","at":"1.1001.1001"}
 {"ok":["1.1001.1001.1001"],"s":2}
{"s":3,"call":"append","at":"1.1001.1001","tree":["c"]}
 {"s":3,"wait":{"asks":"CX","by":[1,2],"on":"node 1.1001.1001"}}
{"s":1,"call":"commit"}
 {"ok":2,"s":1}
{"s":2,"call":"commit"}
 {"ok":3,"s":2}
 {"ok":"1.1001.1001.1003","s":3,"woke":true}
{"s":3,"call":"commit"}
 {"ok":4,"s":3}
"#,
        then: r#"
{"s":1,"call":"begin"}
 {"ok":1,"s":1}
{"s":1,"call":"dump","at":"1.1001"}
 {"ok":["a",["b"],["c"]],"s":1}
"#,
    },
    // Two sessions insert at places of one list that are apart: both commits are in the store.
    Row {
        tree: r#"["a",["b"],["c"],["d"],["e"],["f"]]"#,
        script: r#"
{"s":1,"call":"begin"}
 {"ok":2,"s":1}
{"s":2,"call":"begin"}
 {"ok":1,"s":2}
{"s":1,"call":"insert","at":"1.1001.1001","before":"1.1001.1001.1003","tree":["p"]}
 {"ok":"1.1001.1001.1002.1001","s":1}
{"s":2,"call":"insert","at":"1.1001.1001","before":"1.1001.1001.1007","tree":["q"]}
 {"ok":"1.1001.1001.1006.1001","s":2}
{"s":2,"call":"commit"}
 {"ok":2,"s":2}
{"s":1,"call":"commit"}
 {"ok":3,"s":1}
"#,
        then: r#"
{"s":1,"call":"begin"}
 {"ok":1,"s":1}
{"s":1,"call":"dump","at":"1.1001"}
 {"ok":["a",["b"],["p"],["c"],["d"],["q"],["e"],["f"]],"s":1}
"#,
    },
    // A text that is changed bars the reading of its list until the change is aborted.
    Row {
        tree: r#"["a",["b","t"],["c"]]"#,
        script: r##"
{"s":1,"call":"begin"}
 {"ok":2,"s":1}
{"s":2,"call":"begin"}
 {"ok":1,"s":2}
{"s":1,"call":"set_data","at":"1.1001.1001.1001.1001","data":"u"}
 {"ok":null,"s":1}
{"s":2,"call":"children","at":"1.1001.1001"}
 {"ok":["1.1001.1001.1001","1.1001.1001.1003"],"s":2}
{"s":2,"call":"children","at":"1.1001.1001.1001"}
 {"s":2,"wait":{"asks":"LR","by":[1],"on":"node 1.1001.1001.1001"}}
{"s":1,"call":"abort"}
 {"ok":null,"s":1}
 {"ok":["1.1001.1001.1001.1001"],"s":2,"woke":true}
{"s":2,"call":"node","at":"1.1001.1001.1001.1001"}
 {"ok":{"name":"#text","type":3,"value":"t"},"s":2}
"##,
        then: r#"
{"s":1,"call":"begin"}
 {"ok":1,"s":1}
{"s":1,"call":"dump","at":"1.1001"}
 {"ok":["a",["b","t"],["c"]],"s":1}
"#,
    },
    // Both sessions have read a list and append to it: a deadlock, which wakes the other one.
    Row {
        tree: r#"["a",["b"]]"#,
        script: r#"
{"s":1,"call":"begin"}
 {"ok":2,"s":1}
{"s":2,"call":"begin"}
 {"ok":1,"s":2}
{"s":1,"call":"children","at":"1.1001.1001"}
 {"ok":["1.1001.1001.1001"],"s":1}
{"s":2,"call":"children","at":"1.1001.1001"}
 {"ok":["1.1001.1001.1001"],"s":2}
{"s":1,"call":"append","at":"1.1001.1001","tree":["c"]}
 {"s":1,"wait":{"asks":"CX","by":[2],"on":"node 1.1001.1001"}}
{"s":2,"call":"append","at":"1.1001.1001","tree":["d"]}
 {"deadlock":[2,1],"s":2}
 {"ok":"1.1001.1001.1003","s":1,"woke":true}
{"s":2,"call":"commit"}
 {"err":{"name":"NoTransaction"},"s":2}
{"s":1,"call":"commit"}
 {"ok":2,"s":1}
"#,
        then: r#"
{"s":2,"call":"begin"}
 {"ok":1,"s":2}
{"s":2,"call":"dump","at":"1.1001"}
 {"ok":["a",["b"],["c"]],"s":2}
"#,
    },
    // Three sessions wait in a cycle. Of the two that are left one goes on, and the other one once that has committed.
    Row {
        tree: r#"["a",["b"],["c"],["d"]]"#,
        script: r#"
{"s":1,"call":"begin"}
 {"ok":2,"s":1}
{"s":2,"call":"begin"}
 {"ok":1,"s":2}
{"s":3,"call":"begin"}
 {"ok":1,"s":3}
{"s":1,"call":"rename","at":"1.1001.1001.1001","name":"p"}
 {"ok":null,"s":1}
{"s":2,"call":"rename","at":"1.1001.1001.1003","name":"q"}
 {"ok":null,"s":2}
{"s":3,"call":"rename","at":"1.1001.1001.1005","name":"r"}
 {"ok":null,"s":3}
{"s":1,"call":"first","at":"1.1001.1001.1003"}
 {"s":1,"wait":{"asks":"NR","by":[2],"on":"node 1.1001.1001.1003"}}
{"s":2,"call":"first","at":"1.1001.1001.1005"}
 {"s":2,"wait":{"asks":"NR","by":[3],"on":"node 1.1001.1001.1005"}}
{"s":3,"call":"first","at":"1.1001.1001.1001"}
 {"deadlock":[3,1,2],"s":3}
 {"ok":null,"s":2,"woke":true}
{"s":2,"call":"commit"}
 {"ok":2,"s":2}
 {"ok":null,"s":1,"woke":true}
"#,
        then: r#"
{"s":3,"call":"begin"}
 {"ok":1,"s":3}
{"s":3,"call":"dump","at":"1.1001"}
 {"ok":["a",["b"],["q"],["d"]],"s":3}
"#,
    },
    // New labels stand between their neighbours, and one that is free again is given again.
    Row {
        tree: r#"["a"]"#,
        script: r#"
{"s":1,"call":"begin"}
 {"ok":2,"s":1}
{"s":1,"call":"append","at":"1.1001.1001","tree":["b"]}
 {"ok":"1.1001.1001.1001","s":1}
{"s":1,"call":"append","at":"1.1001.1001","tree":["c"]}
 {"ok":"1.1001.1001.1003","s":1}
{"s":1,"call":"insert","at":"1.1001.1001","before":"1.1001.1001.1003","tree":["d"]}
 {"ok":"1.1001.1001.1002.1001","s":1}
{"s":1,"call":"insert","at":"1.1001.1001","before":"1.1001.1001.1002.1001","tree":["e"]}
 {"ok":"1.1001.1001.1002.999","s":1}
{"s":1,"call":"children","at":"1.1001.1001"}
 {"ok":["1.1001.1001.1001","1.1001.1001.1002.999","1.1001.1001.1002.1001","1.1001.1001.1003"],"s":1}
{"s":1,"call":"remove","at":"1.1001.1001","old":"1.1001.1001.1003"}
 {"ok":["c"],"s":1}
{"s":1,"call":"append","at":"1.1001.1001","tree":["f"]}
 {"ok":"1.1001.1001.1003","s":1}
{"s":1,"call":"replace","at":"1.1001.1001","old":"1.1001.1001.1002.999","tree":["g"]}
 {"ok":{"new":"1.1001.1001.1002.999","old":["e"]},"s":1}
{"s":1,"call":"insert","at":"1.1001.1001","before":"1.1001.1001.1001","tree":"t"}
 {"ok":"1.1001.1001.999","s":1}
{"s":1,"call":"insert","at":"1.1001.1001","before":"1.1001.1001","tree":["b"]}
 {"err":{"code":8,"name":"NOT_FOUND_ERR"},"s":1}
{"s":1,"call":"commit"}
 {"ok":2,"s":1}
"#,
        then: r#"
{"s":1,"call":"begin"}
 {"ok":1,"s":1}
{"s":1,"call":"dump","at":"1.1001"}
 {"ok":["a","t",["b"],["g"],["d"],["f"]],"s":1}
{"s":1,"call":"next","at":"1.1001.1001.1001"}
 {"ok":"1.1001.1001.1002.999","s":1}
{"s":1,"call":"prev","at":"1.1001.1001.1003"}
 {"ok":"1.1001.1001.1002.1001","s":1}
{"s":1,"call":"parent","at":"1.1001.1001.1002.999"}
 {"ok":"1.1001.1001","s":1}
"#,
    },
    // Offsets count characters, whether they have one byte, two or four.
    Row {
        tree: r#"["a","ab"]"#,
        script: r#"
{"s":1,"call":"begin"}
 {"ok":2,"s":1}
{"s":1,"call":"split_text","at":"1.1001.1001.1001","offset":3}
 {"err":{"code":1,"name":"INDEX_SIZE_ERR"},"s":1}
{"s":1,"call":"split_text","at":"1.1001.1001.1001","offset":2}
 {"ok":"1.1001.1001.1003","s":1}
{"s":1,"call":"dump","at":"1.1001.1001"}
 {"ok":["a","ab",""],"s":1}
{"s":1,"call":"normalize","at":"1.1001.1001"}
 {"ok":null,"s":1}
{"s":1,"call":"dump","at":"1.1001.1001"}
 {"ok":["a","ab"],"s":1}
{"s":1,"call":"set_data","at":"1.1001.1001.1001","data":"é😀"}
 {"ok":null,"s":1}
{"s":1,"call":"length","at":"1.1001.1001.1001"}
 {"ok":2,"s":1}
{"s":1,"call":"substring","at":"1.1001.1001.1001","offset":1,"count":1}
 {"ok":"😀","s":1}
{"s":1,"call":"substring","at":"1.1001.1001.1001","offset":2,"count":1}
 {"ok":"","s":1}
{"s":1,"call":"substring","at":"1.1001.1001.1001","offset":3,"count":0}
 {"err":{"code":1,"name":"INDEX_SIZE_ERR"},"s":1}
{"s":1,"call":"insert_data","at":"1.1001.1001.1001","offset":1,"data":"ab€"}
 {"ok":null,"s":1}
{"s":1,"call":"substring","at":"1.1001.1001.1001","offset":0,"count":9}
 {"ok":"éab€😀","s":1}
{"s":1,"call":"delete_data","at":"1.1001.1001.1001","offset":2,"count":2}
 {"ok":null,"s":1}
{"s":1,"call":"replace_data","at":"1.1001.1001.1001","offset":0,"count":1,"data":"ß😀"}
 {"ok":null,"s":1}
{"s":1,"call":"append_data","at":"1.1001.1001.1001","data":"."}
 {"ok":null,"s":1}
{"s":1,"call":"length","at":"1.1001.1001.1001"}
 {"ok":5,"s":1}
{"s":1,"call":"split_text","at":"1.1001.1001.1001","offset":2}
 {"ok":"1.1001.1001.1003","s":1}
{"s":1,"call":"split_text","at":"1.1001.1001.1001","offset":1}
 {"ok":"1.1001.1001.1002.1001","s":1}
{"s":1,"call":"split_text","at":"1.1001.1001","offset":0}
 {"err":{"code":9,"name":"NOT_SUPPORTED_ERR"},"s":1}
{"s":1,"call":"commit"}
 {"ok":2,"s":1}
"#,
        then: r#"
{"s":1,"call":"begin"}
 {"ok":1,"s":1}
{"s":1,"call":"dump","at":"1.1001"}
 {"ok":["a","ß","😀","a😀."],"s":1}
{"s":1,"call":"normalize","at":"1.1001"}
 {"ok":null,"s":1}
{"s":1,"call":"dump","at":"1.1001"}
 {"ok":["a","ß😀a😀."],"s":1}
"#,
    },
    // Texts side by side are joined at each level, and empty ones taken out.
    Row {
        tree: r#"["a","","x","",["b","","",["c",""],"y","z"],"","w"]"#,
        script: r#"
{"s":1,"call":"begin"}
 {"ok":2,"s":1}
{"s":1,"call":"normalize","at":"1.1001.1001.1007.1005"}
 {"ok":null,"s":1}
{"s":1,"call":"dump","at":"1.1001.1001.1007"}
 {"ok":["b","","",["c"],"y","z"],"s":1}
{"s":1,"call":"normalize","at":"1.1001"}
 {"ok":null,"s":1}
{"s":1,"call":"dump","at":"1.1001.1001"}
 {"ok":["a","x",["b",["c"],"yz"],"w"],"s":1}
{"s":1,"call":"children","at":"1.1001.1001"}
 {"ok":["1.1001.1001.1001","1.1001.1001.1007","1.1001.1001.1009"],"s":1}
{"s":1,"call":"children","at":"1.1001.1001.1007"}
 {"ok":["1.1001.1001.1007.1005","1.1001.1001.1007.1007"],"s":1}
{"s":1,"call":"text_content","at":"1.1001.1001"}
 {"ok":"xyzw","s":1}
{"s":1,"call":"set_text","at":"1.1001.1001.1007","data":""}
 {"ok":null,"s":1}
{"s":1,"call":"set_text","at":"1.1001.1001.1009","data":"v"}
 {"ok":null,"s":1}
{"s":1,"call":"remove","at":"1.1001.1001","old":"1.1001.1001.1007"}
 {"ok":["b"],"s":1}
{"s":1,"call":"commit"}
 {"ok":2,"s":1}
"#,
        then: r#"
{"s":1,"call":"begin"}
 {"ok":1,"s":1}
{"s":1,"call":"normalize","at":"1.1001.1001"}
 {"ok":null,"s":1}
{"s":1,"call":"children","at":"1.1001.1001"}
 {"ok":["1.1001.1001.1001"],"s":1}
{"s":1,"call":"dump","at":"1.1001.1001"}
 {"ok":["a","xv"],"s":1}
"#,
    },
    // A text has 1,048,576 bytes at most, however it comes by them.
    Row {
        tree: r#"["a","@600000 x@"]"#,
        script: r#"
{"s":1,"call":"begin"}
 {"ok":2,"s":1}
{"s":1,"call":"append_data","at":"1.1001.1001.1001","data":"@448576 x@"}
 {"ok":null,"s":1}
{"s":1,"call":"append_data","at":"1.1001.1001.1001","data":"x"}
 {"err":{"name":"TextLimit"},"s":1}
{"s":1,"call":"insert_data","at":"1.1001.1001.1001","offset":0,"data":"x"}
 {"err":{"name":"TextLimit"},"s":1}
{"s":1,"call":"replace_data","at":"1.1001.1001.1001","offset":7,"count":1,"data":"é"}
 {"err":{"name":"TextLimit"},"s":1}
{"s":1,"call":"replace_data","at":"1.1001.1001.1001","offset":7,"count":2,"data":"é"}
 {"ok":null,"s":1}
{"s":1,"call":"length","at":"1.1001.1001.1001"}
 {"ok":1048575,"s":1}
{"s":1,"call":"split_text","at":"1.1001.1001.1001","offset":8}
 {"ok":"1.1001.1001.1003","s":1}
{"s":1,"call":"append","at":"1.1001.1001","tree":"y"}
 {"ok":"1.1001.1001.1005","s":1}
{"s":1,"call":"normalize","at":"1.1001.1001"}
 {"err":{"name":"TextLimit"},"s":1}
{"s":1,"call":"remove","at":"1.1001.1001","old":"1.1001.1001.1005"}
 {"ok":"y","s":1}
{"s":1,"call":"normalize","at":"1.1001.1001"}
 {"ok":null,"s":1}
{"s":1,"call":"commit"}
 {"ok":2,"s":1}
"#,
        then: r#"
{"s":1,"call":"begin"}
 {"ok":1,"s":1}
{"s":1,"call":"children","at":"1.1001.1001"}
 {"ok":["1.1001.1001.1001"],"s":1}
{"s":1,"call":"length","at":"1.1001.1001.1001"}
 {"ok":1048575,"s":1}
{"s":1,"call":"substring","at":"1.1001.1001.1001","offset":6,"count":3}
 {"ok":"xéx","s":1}
"#,
    },
    // A node has level 101 at most, whichever call places it.
    Row {
        tree: r#"@99 ["a",@["a"]@99 ]@"#,
        script: r#"
{"s":1,"call":"begin"}
 {"ok":2,"s":1}
{"s":1,"call":"parent","at":"1.1001@100 .1001@"}
 {"ok":"1.1001@99 .1001@","s":1}
{"s":1,"call":"append","at":"1.1001@100 .1001@","tree":["b"]}
 {"err":{"name":"TooDeep"},"s":1}
{"s":1,"call":"insert","at":"1.1001@100 .1001@","before":null,"tree":"t"}
 {"err":{"name":"TooDeep"},"s":1}
{"s":1,"call":"set_text","at":"1.1001@100 .1001@","data":"t"}
 {"err":{"name":"TooDeep"},"s":1}
{"s":1,"call":"set_text","at":"1.1001@100 .1001@","data":""}
 {"ok":null,"s":1}
{"s":1,"call":"append","at":"1.1001@99 .1001@","tree":["b",["c"]]}
 {"err":{"name":"TooDeep"},"s":1}
{"s":1,"call":"append","at":"1.1001@99 .1001@","tree":["b"]}
 {"ok":"1.1001@99 .1001@.1003","s":1}
{"s":1,"call":"insert","at":"1.1001@99 .1001@","before":"1.1001@100 .1001@","tree":"t"}
 {"ok":"1.1001@99 .1001@.999","s":1}
{"s":1,"call":"replace","at":"1.1001@99 .1001@","old":"1.1001@100 .1001@","tree":["d","t"]}
 {"err":{"name":"TooDeep"},"s":1}
{"s":1,"call":"replace","at":"1.1001@99 .1001@","old":"1.1001@100 .1001@","tree":["d"]}
 {"ok":{"new":"1.1001@100 .1001@","old":["a"]},"s":1}
{"s":1,"call":"create","name":"y","tree":@100 ["a",@["a"]@100 ]@}
 {"bad":"tree TooDeep @100 /1@","line":15}
{"s":1,"call":"create","name":"y","tree":@99 ["a",@["a"]@99 ]@}
 {"ok":"1.1003","s":1}
{"s":1,"call":"commit"}
 {"ok":2,"s":1}
"#,
        then: r#"
{"s":1,"call":"begin"}
 {"ok":1,"s":1}
{"s":1,"call":"dump","at":"1.1001"}
 {"ok":@99 ["a",@"t",["d"],["b"]@99 ]@,"s":1}
{"s":1,"call":"last","at":"1.1001@99 .1001@"}
 {"ok":"1.1001@99 .1001@.1003","s":1}
"#,
    },
    // A bad line is told its reason and its number, and changes nothing.
    Row {
        tree: r#"["a"]"#,
        script: r#"
{"s":1,"call":"begin"}
 {"ok":2,"s":1}
{"s":1,"call":"create","name":"y","tree":7}
 {"bad":"tree NotJsonMl ","line":5}
{"s":1,"call":"create","name":"y","tree":[]}
 {"bad":"tree NotJsonMl ","line":6}
{"s":1,"call":"create","name":"y","tree":[1]}
 {"bad":"tree NotJsonMl /0","line":7}
{"s":1,"call":"create","name":"y","tree":["1a"]}
 {"bad":"tree BadName /0","line":8}
{"s":1,"call":"create","name":"y","tree":["a",{"n":1.5}]}
 {"bad":"tree Fraction /1/n","line":9}
{"s":1,"call":"create","name":"y","tree":["a",{"n":[]}]}
 {"bad":"tree NotJsonMl /1/n","line":10}
{"s":1,"call":"create","name":"y","tree":["a",{"x/~y":0}]}
 {"bad":"tree BadName /1/x~1~0y","line":11}
{"s":1,"call":"create","name":"y","tree":["a","t",["b",null]]}
 {"bad":"tree NotJsonMl /2/1","line":12}
nope
 {"bad":"json","line":13}
{"s":1,"call":"abort"
 {"bad":"json","line":14}
[1]
 {"bad":"object","line":15}
{"s":1}
 {"bad":"call","line":16}
{"s":0,"call":"abort"}
 {"bad":"s","line":17}
{"s":1,"call":"find","at":"1.1001","path":"a["}
 {"bad":"path Syntax 2","line":18}
{"s":1,"call":"docs","at":"1.1001"}
 {"bad":"extra","line":19}
{"s":1,"call":"append","at":"1","tree":7}
 {"bad":"at","line":20}
{"s":1,"call":"append","at":"1.1001"}
 {"bad":"tree","line":21}
{"s":1,"call":"insert","at":"1.1001","tree":["b"]}
 {"bad":"before","line":22}
{"s":1,"call":"length","at":"1.1001.2"}
 {"bad":"at","line":23}
{"s":1,"call":"substring","at":"1.1001","offset":-1,"count":1}
 {"bad":"offset","line":24}
{"s":1,"call":"create","name":"y","tree":["a"]}
 {"ok":"1.1003","s":1}
{"s":1,"call":"append","at":"1.1003","tree":"t"}
 {"err":{"code":3,"name":"HIERARCHY_REQUEST_ERR"},"s":1}
{"s":1,"call":"append","at":"1.1003","tree":["b"]}
 {"err":{"code":3,"name":"HIERARCHY_REQUEST_ERR"},"s":1}
{"s":1,"call":"begin"}
 {"err":{"name":"InTransaction"},"s":1}
"#,
        then: r#"
{"s":1,"call":"begin"}
 {"ok":1,"s":1}
{"s":1,"call":"docs"}
 {"ok":[["x","1.1001"]],"s":1}
"#,
    },
];
