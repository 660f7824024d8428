// Journals that get full.
use crate::tests::Script;

pub const ROWS: [Script<'static>; 4] = [
    // A Begin is refused below its promise.
    Script {
        limit: 4_325_375,
        passes: 2,
        sessions: 0,
        lines: "0 begin - 0 > full 0 0\n0 count > 0\n",
    },
    // A Begin claims its whole promise.
    Script {
        limit: 4_325_376,
        passes: 2,
        sessions: 0,
        lines: "0 begin - 0 > begun 0 0 - -\n1 begin - 0 > full 80 4325296\n0 abandon 0 > dropped\n1 begin - 0 > full 144 0\n",
    },
    // A busy session is told before a full journal.
    Script {
        limit: 4_325_633,
        passes: 2,
        sessions: 0,
        lines: "0 begin - 0 > begun 0 0 - -\n0 fresh 0 > made 0 0000000000000000ade0b876903df1a0e56a5d4028bd8653\n0 end 0 1 > ended\n0 begin 0000000000000000ade0b876903df1a0e56a5d4028bd8653 0 > begun 1 0 0 1\n1 begin 0000000000000000ade0b876903df1a0e56a5d4028bd8653 0 > busy 1\n1 begin - 0 > full 385 4325248\n",
    },
    // A request reads an absent name 11,780 times, and ends.
    Script {
        limit: 4_325_478,
        passes: 2,
        sessions: 0,
        lines: "0 publish - /x.jsp 0 > version 1, 0 dirty\n0 begin - 0 > begun 0 1 - -\n1 begin - 0 > full 182 4325296\n0 fetch 0 /x.jsp > hit false\n0 offer 0 /x.jsp > kept true\n1 begin - 0 > full 354 4325124\n0 get 0 > null\n1 begin - 0 > full 443 4325035\n11779 times 0 get 0 > null\n1 begin - 0 > full 1048774 3276704\n0 end 0 - > ended\n1 begin - 0 > full 1048854 0\n0 count > 11785\n",
    },
];
