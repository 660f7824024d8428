// Operations that are steps.
use crate::tests::Script;
use site_core_tests::AMPLE;

pub const ROWS: [Script<'static>; 5] = [
    // Two passes each read a name and set it.
    Script {
        limit: 8_650_752,
        passes: 3,
        sessions: 0,
        lines: "0 begin - 0 > begun 0 0 - -\n1 begin - 0 > begun 1 0 - -\n2 begin - 0 > full 160 8650592\n0 get 0 > null\n2 begin - 0 > full 249 8650503\n1 get 1 > null\n2 begin - 0 > full 338 8650414\n0 set 0 1 > done\n2 begin - 0 > full 435 8650317\n1 set 1 1 > done\n2 begin - 0 > full 532 8650220\n1 get 1 > 1\n0 entry 2 > 0 get null\n0 entry 3 > 1 get null\n0 entry 4 > 0 set done\n0 entry 5 > 1 set done\n0 entry 6 > 1 get 1\n0 count > 7\n",
    },
    // Refusals come in their order.
    Script {
        limit: 200,
        passes: 1,
        sessions: 0,
        lines: "0 publish 1 /a.jsp 1048577 > stale 0\n0 publish - /a.jsp 1048577 > large FileTooLarge\n0 publish - /a.jsp 99 > full 0 0\n0 publish - /a.jsp 98 > version 1, 0 dirty\n0 publish 0 /a.jsp 0 > stale 1\n0 publish 1 /a.jsp 0 > full 200 0\n0 picture - > full 200 0\n0 count > 1\n",
    },
    // A publishing names its base.
    Script {
        limit: AMPLE,
        passes: 1,
        sessions: 0,
        lines: "0 publish - /a.jsp 1 > version 1, 0 dirty\n0 publish 1 /a.jsp 2 > version 2, 0 dirty\n0 publish - /b.jsp 1 > version 3, 0 dirty\n0 publish 2 /a.jsp 3 > stale 3\n0 file /a.jsp > 2 2\n0 publish 3 /a.jsp 3 > version 4, 0 dirty\n0 file /a.jsp > 4 3\n0 file /b.jsp > 3 1\n0 file /c.jsp > none\n",
    },
    // Only what meets its condition is asked for.
    Script {
        limit: AMPLE,
        passes: 2,
        sessions: 0,
        lines: "2 publish - /a.jsp 1 > unfit\n0 begin 0000000000000000000000000000000000000000000000000 0 > unfit\n0 get 0 > unfit\n0 begin - 0 > begun 0 0 - -\n0 begin - 0 > unfit\n1 get 0 > unfit\n0 end 0 1 > unfit\n0 offer 0 /a.jsp > unfit\n0 fresh 0 > made 0 0000000000000000ade0b876903df1a0e56a5d4028bd8653\n0 fresh 0 > unfit\n0 abandon 1 > unfit\n0 end 0 - > ended\n0 abandon 0 > unfit\n",
    },
    // What is offered is found again.
    Script {
        limit: AMPLE,
        passes: 2,
        sessions: 0,
        lines: "0 publish - /a.jsp 1 > version 1, 0 dirty\n0 begin - 0 > begun 0 1 - -\n0 fetch 0 /a.jsp > hit false\n0 offer 0 /a.jsp > kept true\n0 fetch 0 /a.jsp > hit true made\n1 begin - 0 > begun 1 1 - -\n1 fetch 1 /a.jsp > hit true made\n1 fetch 1 /b.jsp > hit false\n",
    },
];
