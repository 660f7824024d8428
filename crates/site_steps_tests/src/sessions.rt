// Sessions: who holds one, when one ends, and how many there are.
use crate::tests::Script;
use site_core_tests::AMPLE;

pub const ROWS: [Script<'static>; 4] = [
    // A session is held by one request.
    Script {
        limit: AMPLE,
        passes: 2,
        sessions: 0,
        lines: "0 begin - 0 > begun 0 0 - -\n0 fresh 0 > made 0 0000000000000000ade0b876903df1a0e56a5d4028bd8653\n0 end 0 1 > ended\n0 begin 0000000000000000ade0b876903df1a0e56a5d4028bd8653 0 > begun 1 0 0 1\n0 end 1 2 > ended\n0 begin - 0 > begun 2 0 - -\n0 abandon 2 > dropped\n0 begin - 0 > begun 3 0 - -\n0 abandon 3 > dropped\n0 begin - 0 > begun 4 0 - -\n0 abandon 4 > dropped\n0 begin 0000000000000000ade0b876903df1a0e56a5d4028bd8653 0 > begun 5 0 0 2\n1 begin 0000000000000000ade0b876903df1a0e56a5d4028bd8653 0 > busy 5\n1 picture 0000000000000000ade0b876903df1a0e56a5d4028bd8653 > snapped 0 0 - 2\n0 end 5 3 > ended\n1 begin 0000000000000000ade0b876903df1a0e56a5d4028bd8653 0 > begun 6 0 0 3\n1 abandon 6 > dropped\n0 begin - 0 > begun 7 0 - -\n0 fresh 7 > made 1 0000000000000001b819d2bd1aed8da0ccef36a8c70d778b\n0 end 7 - > ended\n1 begin 0000000000000000ade0b876903df1a0e56a5d4028bd8653 0 > begun 8 0 0 3\n0 begin 0000000000000001b819d2bd1aed8da0ccef36a8c70d778b 0 > begun 9 0 1 -\n",
    },
    // A session ends one second past its idle time.
    Script {
        limit: AMPLE,
        passes: 1,
        sessions: 0,
        lines: "0 begin - 0 > begun 0 0 - -\n0 fresh 0 > made 0 0000000000000000ade0b876903df1a0e56a5d4028bd8653\n0 end 0 1 > ended\n0 begin 0000000000000000ade0b876903df1a0e56a5d4028bd8653 1800 > begun 1 0 0 1\n0 end 1 2 > ended\n0 begin 0000000000000000ade0b876903df1a0e56a5d4028bd8653 3601 > begun 2 0 - -\n0 fresh 2 > made 1 0000000000000001b819d2bd1aed8da0ccef36a8c70d778b\n0 end 2 1 > ended\n0 begin 0000000000000000ade0b876903df1a0e56a5d4028bd8653 3601 > begun 3 0 - -\n0 abandon 3 > dropped\n0 begin 0000000000000001b819d2bd1aed8da0ccef36a8c70d778b 0 > begun 4 0 1 1\n",
    },
    // A held session is busy, however old.
    Script {
        limit: AMPLE,
        passes: 2,
        sessions: 0,
        lines: "0 begin - 0 > begun 0 0 - -\n0 fresh 0 > made 0 0000000000000000ade0b876903df1a0e56a5d4028bd8653\n1 begin 0000000000000000ade0b876903df1a0e56a5d4028bd8653 9000 > busy 0\n1 begin - 9000 > begun 1 0 - -\n1 picture 0000000000000000ade0b876903df1a0e56a5d4028bd8653 > snapped 0 0 - -\n0 abandon 0 > dropped\n0 begin 0000000000000000ade0b876903df1a0e56a5d4028bd8653 10800 > begun 2 0 0 -\n",
    },
    // The 4,097th session takes the place of the first free one.
    Script {
        limit: AMPLE,
        passes: 2,
        sessions: 4_096,
        lines: "1 begin 0000000000000000ade0b876903df1a0e56a5d4028bd8653 0 > begun 4096 0 0 -\n0 begin - 0 > begun 4097 0 - -\n0 fresh 4097 > made 4096 000000000000100044e39fb1a6636ca8b9656e7427e5b63a\n0 end 4097 - > ended\n0 begin 0000000000000001b819d2bd1aed8da0ccef36a8c70d778b 0 > begun 4098 0 - -\n0 abandon 4098 > dropped\n1 end 4096 - > ended\n1 begin 0000000000000000ade0b876903df1a0e56a5d4028bd8653 0 > begun 4099 0 0 -\n",
    },
];
