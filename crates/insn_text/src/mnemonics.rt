//! The mnemonics of instructions and aliases, as `make_table.py` writes them.

// A mnemonic by the parts of which a text has it.
macro_rules! mnemonic {
    (abs) => { Text { bytes: *b"abs\0\0\0\0\0\0\0\0\0", length: 3 } };
    (adc) => { Text { bytes: *b"adc\0\0\0\0\0\0\0\0\0", length: 3 } };
    (adcs) => { Text { bytes: *b"adcs\0\0\0\0\0\0\0\0", length: 4 } };
    (add) => { Text { bytes: *b"add\0\0\0\0\0\0\0\0\0", length: 3 } };
    (addha) => { Text { bytes: *b"addha\0\0\0\0\0\0\0", length: 5 } };
    (addpl) => { Text { bytes: *b"addpl\0\0\0\0\0\0\0", length: 5 } };
    (adds) => { Text { bytes: *b"adds\0\0\0\0\0\0\0\0", length: 4 } };
    (addspl) => { Text { bytes: *b"addspl\0\0\0\0\0\0", length: 6 } };
    (addsvl) => { Text { bytes: *b"addsvl\0\0\0\0\0\0", length: 6 } };
    (addva) => { Text { bytes: *b"addva\0\0\0\0\0\0\0", length: 5 } };
    (addvl) => { Text { bytes: *b"addvl\0\0\0\0\0\0\0", length: 5 } };
    (adr) => { Text { bytes: *b"adr\0\0\0\0\0\0\0\0\0", length: 3 } };
    (adrp) => { Text { bytes: *b"adrp\0\0\0\0\0\0\0\0", length: 4 } };
    (and) => { Text { bytes: *b"and\0\0\0\0\0\0\0\0\0", length: 3 } };
    (ands) => { Text { bytes: *b"ands\0\0\0\0\0\0\0\0", length: 4 } };
    (andv) => { Text { bytes: *b"andv\0\0\0\0\0\0\0\0", length: 4 } };
    (asr) => { Text { bytes: *b"asr\0\0\0\0\0\0\0\0\0", length: 3 } };
    (asrv) => { Text { bytes: *b"asrv\0\0\0\0\0\0\0\0", length: 4 } };
    (b) => { Text { bytes: *b"b\0\0\0\0\0\0\0\0\0\0\0", length: 1 } };
    (b.al) => { Text { bytes: *b"b.al\0\0\0\0\0\0\0\0", length: 4 } };
    (b.cc) => { Text { bytes: *b"b.cc\0\0\0\0\0\0\0\0", length: 4 } };
    (b.cs) => { Text { bytes: *b"b.cs\0\0\0\0\0\0\0\0", length: 4 } };
    (b.eq) => { Text { bytes: *b"b.eq\0\0\0\0\0\0\0\0", length: 4 } };
    (b.ge) => { Text { bytes: *b"b.ge\0\0\0\0\0\0\0\0", length: 4 } };
    (b.gt) => { Text { bytes: *b"b.gt\0\0\0\0\0\0\0\0", length: 4 } };
    (b.hi) => { Text { bytes: *b"b.hi\0\0\0\0\0\0\0\0", length: 4 } };
    (b.le) => { Text { bytes: *b"b.le\0\0\0\0\0\0\0\0", length: 4 } };
    (b.ls) => { Text { bytes: *b"b.ls\0\0\0\0\0\0\0\0", length: 4 } };
    (b.lt) => { Text { bytes: *b"b.lt\0\0\0\0\0\0\0\0", length: 4 } };
    (b.mi) => { Text { bytes: *b"b.mi\0\0\0\0\0\0\0\0", length: 4 } };
    (b.ne) => { Text { bytes: *b"b.ne\0\0\0\0\0\0\0\0", length: 4 } };
    (b.nv) => { Text { bytes: *b"b.nv\0\0\0\0\0\0\0\0", length: 4 } };
    (b.pl) => { Text { bytes: *b"b.pl\0\0\0\0\0\0\0\0", length: 4 } };
    (b.vc) => { Text { bytes: *b"b.vc\0\0\0\0\0\0\0\0", length: 4 } };
    (b.vs) => { Text { bytes: *b"b.vs\0\0\0\0\0\0\0\0", length: 4 } };
    (bcax) => { Text { bytes: *b"bcax\0\0\0\0\0\0\0\0", length: 4 } };
    (bfm) => { Text { bytes: *b"bfm\0\0\0\0\0\0\0\0\0", length: 3 } };
    (bic) => { Text { bytes: *b"bic\0\0\0\0\0\0\0\0\0", length: 3 } };
    (bics) => { Text { bytes: *b"bics\0\0\0\0\0\0\0\0", length: 4 } };
    (bl) => { Text { bytes: *b"bl\0\0\0\0\0\0\0\0\0\0", length: 2 } };
    (blr) => { Text { bytes: *b"blr\0\0\0\0\0\0\0\0\0", length: 3 } };
    (br) => { Text { bytes: *b"br\0\0\0\0\0\0\0\0\0\0", length: 2 } };
    (brk) => { Text { bytes: *b"brk\0\0\0\0\0\0\0\0\0", length: 3 } };
    (bsl) => { Text { bytes: *b"bsl\0\0\0\0\0\0\0\0\0", length: 3 } };
    (cas) => { Text { bytes: *b"cas\0\0\0\0\0\0\0\0\0", length: 3 } };
    (cas a) => { Text { bytes: *b"casa\0\0\0\0\0\0\0\0", length: 4 } };
    (cas a b) => { Text { bytes: *b"casab\0\0\0\0\0\0\0", length: 5 } };
    (cas a h) => { Text { bytes: *b"casah\0\0\0\0\0\0\0", length: 5 } };
    (cas al) => { Text { bytes: *b"casal\0\0\0\0\0\0\0", length: 5 } };
    (cas al b) => { Text { bytes: *b"casalb\0\0\0\0\0\0", length: 6 } };
    (cas al h) => { Text { bytes: *b"casalh\0\0\0\0\0\0", length: 6 } };
    (cas b) => { Text { bytes: *b"casb\0\0\0\0\0\0\0\0", length: 4 } };
    (cas h) => { Text { bytes: *b"cash\0\0\0\0\0\0\0\0", length: 4 } };
    (cas l) => { Text { bytes: *b"casl\0\0\0\0\0\0\0\0", length: 4 } };
    (cas l b) => { Text { bytes: *b"caslb\0\0\0\0\0\0\0", length: 5 } };
    (cas l h) => { Text { bytes: *b"caslh\0\0\0\0\0\0\0", length: 5 } };
    (cbnz) => { Text { bytes: *b"cbnz\0\0\0\0\0\0\0\0", length: 4 } };
    (cbz) => { Text { bytes: *b"cbz\0\0\0\0\0\0\0\0\0", length: 3 } };
    (ccmn) => { Text { bytes: *b"ccmn\0\0\0\0\0\0\0\0", length: 4 } };
    (ccmp) => { Text { bytes: *b"ccmp\0\0\0\0\0\0\0\0", length: 4 } };
    (cls) => { Text { bytes: *b"cls\0\0\0\0\0\0\0\0\0", length: 3 } };
    (clz) => { Text { bytes: *b"clz\0\0\0\0\0\0\0\0\0", length: 3 } };
    (cmn) => { Text { bytes: *b"cmn\0\0\0\0\0\0\0\0\0", length: 3 } };
    (cmp) => { Text { bytes: *b"cmp\0\0\0\0\0\0\0\0\0", length: 3 } };
    (cmpeq) => { Text { bytes: *b"cmpeq\0\0\0\0\0\0\0", length: 5 } };
    (cmpge) => { Text { bytes: *b"cmpge\0\0\0\0\0\0\0", length: 5 } };
    (cmpgt) => { Text { bytes: *b"cmpgt\0\0\0\0\0\0\0", length: 5 } };
    (cmphi) => { Text { bytes: *b"cmphi\0\0\0\0\0\0\0", length: 5 } };
    (cmphs) => { Text { bytes: *b"cmphs\0\0\0\0\0\0\0", length: 5 } };
    (cmple) => { Text { bytes: *b"cmple\0\0\0\0\0\0\0", length: 5 } };
    (cmplt) => { Text { bytes: *b"cmplt\0\0\0\0\0\0\0", length: 5 } };
    (cmpne) => { Text { bytes: *b"cmpne\0\0\0\0\0\0\0", length: 5 } };
    (cnot) => { Text { bytes: *b"cnot\0\0\0\0\0\0\0\0", length: 4 } };
    (cnt) => { Text { bytes: *b"cnt\0\0\0\0\0\0\0\0\0", length: 3 } };
    (cntb) => { Text { bytes: *b"cntb\0\0\0\0\0\0\0\0", length: 4 } };
    (cntd) => { Text { bytes: *b"cntd\0\0\0\0\0\0\0\0", length: 4 } };
    (cnth) => { Text { bytes: *b"cnth\0\0\0\0\0\0\0\0", length: 4 } };
    (cntp) => { Text { bytes: *b"cntp\0\0\0\0\0\0\0\0", length: 4 } };
    (cntw) => { Text { bytes: *b"cntw\0\0\0\0\0\0\0\0", length: 4 } };
    (cpy) => { Text { bytes: *b"cpy\0\0\0\0\0\0\0\0\0", length: 3 } };
    (csel) => { Text { bytes: *b"csel\0\0\0\0\0\0\0\0", length: 4 } };
    (cset) => { Text { bytes: *b"cset\0\0\0\0\0\0\0\0", length: 4 } };
    (csinc) => { Text { bytes: *b"csinc\0\0\0\0\0\0\0", length: 5 } };
    (csinv) => { Text { bytes: *b"csinv\0\0\0\0\0\0\0", length: 5 } };
    (csneg) => { Text { bytes: *b"csneg\0\0\0\0\0\0\0", length: 5 } };
    (decb) => { Text { bytes: *b"decb\0\0\0\0\0\0\0\0", length: 4 } };
    (decd) => { Text { bytes: *b"decd\0\0\0\0\0\0\0\0", length: 4 } };
    (dech) => { Text { bytes: *b"dech\0\0\0\0\0\0\0\0", length: 4 } };
    (decw) => { Text { bytes: *b"decw\0\0\0\0\0\0\0\0", length: 4 } };
    (dmb) => { Text { bytes: *b"dmb\0\0\0\0\0\0\0\0\0", length: 3 } };
    (dsb) => { Text { bytes: *b"dsb\0\0\0\0\0\0\0\0\0", length: 3 } };
    (dup) => { Text { bytes: *b"dup\0\0\0\0\0\0\0\0\0", length: 3 } };
    (eon) => { Text { bytes: *b"eon\0\0\0\0\0\0\0\0\0", length: 3 } };
    (eor) => { Text { bytes: *b"eor\0\0\0\0\0\0\0\0\0", length: 3 } };
    (eor3) => { Text { bytes: *b"eor3\0\0\0\0\0\0\0\0", length: 4 } };
    (eors) => { Text { bytes: *b"eors\0\0\0\0\0\0\0\0", length: 4 } };
    (eorv) => { Text { bytes: *b"eorv\0\0\0\0\0\0\0\0", length: 4 } };
    (ext) => { Text { bytes: *b"ext\0\0\0\0\0\0\0\0\0", length: 3 } };
    (extr) => { Text { bytes: *b"extr\0\0\0\0\0\0\0\0", length: 4 } };
    (hint) => { Text { bytes: *b"hint\0\0\0\0\0\0\0\0", length: 4 } };
    (incb) => { Text { bytes: *b"incb\0\0\0\0\0\0\0\0", length: 4 } };
    (incd) => { Text { bytes: *b"incd\0\0\0\0\0\0\0\0", length: 4 } };
    (inch) => { Text { bytes: *b"inch\0\0\0\0\0\0\0\0", length: 4 } };
    (incw) => { Text { bytes: *b"incw\0\0\0\0\0\0\0\0", length: 4 } };
    (index) => { Text { bytes: *b"index\0\0\0\0\0\0\0", length: 5 } };
    (isb) => { Text { bytes: *b"isb\0\0\0\0\0\0\0\0\0", length: 3 } };
    (lasta) => { Text { bytes: *b"lasta\0\0\0\0\0\0\0", length: 5 } };
    (lastb) => { Text { bytes: *b"lastb\0\0\0\0\0\0\0", length: 5 } };
    (ld1b) => { Text { bytes: *b"ld1b\0\0\0\0\0\0\0\0", length: 4 } };
    (ld1d) => { Text { bytes: *b"ld1d\0\0\0\0\0\0\0\0", length: 4 } };
    (ld1h) => { Text { bytes: *b"ld1h\0\0\0\0\0\0\0\0", length: 4 } };
    (ld1q) => { Text { bytes: *b"ld1q\0\0\0\0\0\0\0\0", length: 4 } };
    (ld1sb) => { Text { bytes: *b"ld1sb\0\0\0\0\0\0\0", length: 5 } };
    (ld1sh) => { Text { bytes: *b"ld1sh\0\0\0\0\0\0\0", length: 5 } };
    (ld1sw) => { Text { bytes: *b"ld1sw\0\0\0\0\0\0\0", length: 5 } };
    (ld1w) => { Text { bytes: *b"ld1w\0\0\0\0\0\0\0\0", length: 4 } };
    (ldadd) => { Text { bytes: *b"ldadd\0\0\0\0\0\0\0", length: 5 } };
    (ldadd a) => { Text { bytes: *b"ldadda\0\0\0\0\0\0", length: 6 } };
    (ldadd a b) => { Text { bytes: *b"ldaddab\0\0\0\0\0", length: 7 } };
    (ldadd a h) => { Text { bytes: *b"ldaddah\0\0\0\0\0", length: 7 } };
    (ldadd al) => { Text { bytes: *b"ldaddal\0\0\0\0\0", length: 7 } };
    (ldadd al b) => { Text { bytes: *b"ldaddalb\0\0\0\0", length: 8 } };
    (ldadd al h) => { Text { bytes: *b"ldaddalh\0\0\0\0", length: 8 } };
    (ldadd b) => { Text { bytes: *b"ldaddb\0\0\0\0\0\0", length: 6 } };
    (ldadd h) => { Text { bytes: *b"ldaddh\0\0\0\0\0\0", length: 6 } };
    (ldadd l) => { Text { bytes: *b"ldaddl\0\0\0\0\0\0", length: 6 } };
    (ldadd l b) => { Text { bytes: *b"ldaddlb\0\0\0\0\0", length: 7 } };
    (ldadd l h) => { Text { bytes: *b"ldaddlh\0\0\0\0\0", length: 7 } };
    (ldar) => { Text { bytes: *b"ldar\0\0\0\0\0\0\0\0", length: 4 } };
    (ldar b) => { Text { bytes: *b"ldarb\0\0\0\0\0\0\0", length: 5 } };
    (ldar h) => { Text { bytes: *b"ldarh\0\0\0\0\0\0\0", length: 5 } };
    (ldclr) => { Text { bytes: *b"ldclr\0\0\0\0\0\0\0", length: 5 } };
    (ldclr a) => { Text { bytes: *b"ldclra\0\0\0\0\0\0", length: 6 } };
    (ldclr a b) => { Text { bytes: *b"ldclrab\0\0\0\0\0", length: 7 } };
    (ldclr a h) => { Text { bytes: *b"ldclrah\0\0\0\0\0", length: 7 } };
    (ldclr al) => { Text { bytes: *b"ldclral\0\0\0\0\0", length: 7 } };
    (ldclr al b) => { Text { bytes: *b"ldclralb\0\0\0\0", length: 8 } };
    (ldclr al h) => { Text { bytes: *b"ldclralh\0\0\0\0", length: 8 } };
    (ldclr b) => { Text { bytes: *b"ldclrb\0\0\0\0\0\0", length: 6 } };
    (ldclr h) => { Text { bytes: *b"ldclrh\0\0\0\0\0\0", length: 6 } };
    (ldclr l) => { Text { bytes: *b"ldclrl\0\0\0\0\0\0", length: 6 } };
    (ldclr l b) => { Text { bytes: *b"ldclrlb\0\0\0\0\0", length: 7 } };
    (ldclr l h) => { Text { bytes: *b"ldclrlh\0\0\0\0\0", length: 7 } };
    (ldeor) => { Text { bytes: *b"ldeor\0\0\0\0\0\0\0", length: 5 } };
    (ldeor a) => { Text { bytes: *b"ldeora\0\0\0\0\0\0", length: 6 } };
    (ldeor a b) => { Text { bytes: *b"ldeorab\0\0\0\0\0", length: 7 } };
    (ldeor a h) => { Text { bytes: *b"ldeorah\0\0\0\0\0", length: 7 } };
    (ldeor al) => { Text { bytes: *b"ldeoral\0\0\0\0\0", length: 7 } };
    (ldeor al b) => { Text { bytes: *b"ldeoralb\0\0\0\0", length: 8 } };
    (ldeor al h) => { Text { bytes: *b"ldeoralh\0\0\0\0", length: 8 } };
    (ldeor b) => { Text { bytes: *b"ldeorb\0\0\0\0\0\0", length: 6 } };
    (ldeor h) => { Text { bytes: *b"ldeorh\0\0\0\0\0\0", length: 6 } };
    (ldeor l) => { Text { bytes: *b"ldeorl\0\0\0\0\0\0", length: 6 } };
    (ldeor l b) => { Text { bytes: *b"ldeorlb\0\0\0\0\0", length: 7 } };
    (ldeor l h) => { Text { bytes: *b"ldeorlh\0\0\0\0\0", length: 7 } };
    (ldp) => { Text { bytes: *b"ldp\0\0\0\0\0\0\0\0\0", length: 3 } };
    (ldr) => { Text { bytes: *b"ldr\0\0\0\0\0\0\0\0\0", length: 3 } };
    (ldrb) => { Text { bytes: *b"ldrb\0\0\0\0\0\0\0\0", length: 4 } };
    (ldrh) => { Text { bytes: *b"ldrh\0\0\0\0\0\0\0\0", length: 4 } };
    (ldrsb) => { Text { bytes: *b"ldrsb\0\0\0\0\0\0\0", length: 5 } };
    (ldrsh) => { Text { bytes: *b"ldrsh\0\0\0\0\0\0\0", length: 5 } };
    (ldrsw) => { Text { bytes: *b"ldrsw\0\0\0\0\0\0\0", length: 5 } };
    (ldset) => { Text { bytes: *b"ldset\0\0\0\0\0\0\0", length: 5 } };
    (ldset a) => { Text { bytes: *b"ldseta\0\0\0\0\0\0", length: 6 } };
    (ldset a b) => { Text { bytes: *b"ldsetab\0\0\0\0\0", length: 7 } };
    (ldset a h) => { Text { bytes: *b"ldsetah\0\0\0\0\0", length: 7 } };
    (ldset al) => { Text { bytes: *b"ldsetal\0\0\0\0\0", length: 7 } };
    (ldset al b) => { Text { bytes: *b"ldsetalb\0\0\0\0", length: 8 } };
    (ldset al h) => { Text { bytes: *b"ldsetalh\0\0\0\0", length: 8 } };
    (ldset b) => { Text { bytes: *b"ldsetb\0\0\0\0\0\0", length: 6 } };
    (ldset h) => { Text { bytes: *b"ldseth\0\0\0\0\0\0", length: 6 } };
    (ldset l) => { Text { bytes: *b"ldsetl\0\0\0\0\0\0", length: 6 } };
    (ldset l b) => { Text { bytes: *b"ldsetlb\0\0\0\0\0", length: 7 } };
    (ldset l h) => { Text { bytes: *b"ldsetlh\0\0\0\0\0", length: 7 } };
    (ldsmax) => { Text { bytes: *b"ldsmax\0\0\0\0\0\0", length: 6 } };
    (ldsmax a) => { Text { bytes: *b"ldsmaxa\0\0\0\0\0", length: 7 } };
    (ldsmax a b) => { Text { bytes: *b"ldsmaxab\0\0\0\0", length: 8 } };
    (ldsmax a h) => { Text { bytes: *b"ldsmaxah\0\0\0\0", length: 8 } };
    (ldsmax al) => { Text { bytes: *b"ldsmaxal\0\0\0\0", length: 8 } };
    (ldsmax al b) => { Text { bytes: *b"ldsmaxalb\0\0\0", length: 9 } };
    (ldsmax al h) => { Text { bytes: *b"ldsmaxalh\0\0\0", length: 9 } };
    (ldsmax b) => { Text { bytes: *b"ldsmaxb\0\0\0\0\0", length: 7 } };
    (ldsmax h) => { Text { bytes: *b"ldsmaxh\0\0\0\0\0", length: 7 } };
    (ldsmax l) => { Text { bytes: *b"ldsmaxl\0\0\0\0\0", length: 7 } };
    (ldsmax l b) => { Text { bytes: *b"ldsmaxlb\0\0\0\0", length: 8 } };
    (ldsmax l h) => { Text { bytes: *b"ldsmaxlh\0\0\0\0", length: 8 } };
    (ldsmin) => { Text { bytes: *b"ldsmin\0\0\0\0\0\0", length: 6 } };
    (ldsmin a) => { Text { bytes: *b"ldsmina\0\0\0\0\0", length: 7 } };
    (ldsmin a b) => { Text { bytes: *b"ldsminab\0\0\0\0", length: 8 } };
    (ldsmin a h) => { Text { bytes: *b"ldsminah\0\0\0\0", length: 8 } };
    (ldsmin al) => { Text { bytes: *b"ldsminal\0\0\0\0", length: 8 } };
    (ldsmin al b) => { Text { bytes: *b"ldsminalb\0\0\0", length: 9 } };
    (ldsmin al h) => { Text { bytes: *b"ldsminalh\0\0\0", length: 9 } };
    (ldsmin b) => { Text { bytes: *b"ldsminb\0\0\0\0\0", length: 7 } };
    (ldsmin h) => { Text { bytes: *b"ldsminh\0\0\0\0\0", length: 7 } };
    (ldsmin l) => { Text { bytes: *b"ldsminl\0\0\0\0\0", length: 7 } };
    (ldsmin l b) => { Text { bytes: *b"ldsminlb\0\0\0\0", length: 8 } };
    (ldsmin l h) => { Text { bytes: *b"ldsminlh\0\0\0\0", length: 8 } };
    (ldumax) => { Text { bytes: *b"ldumax\0\0\0\0\0\0", length: 6 } };
    (ldumax a) => { Text { bytes: *b"ldumaxa\0\0\0\0\0", length: 7 } };
    (ldumax a b) => { Text { bytes: *b"ldumaxab\0\0\0\0", length: 8 } };
    (ldumax a h) => { Text { bytes: *b"ldumaxah\0\0\0\0", length: 8 } };
    (ldumax al) => { Text { bytes: *b"ldumaxal\0\0\0\0", length: 8 } };
    (ldumax al b) => { Text { bytes: *b"ldumaxalb\0\0\0", length: 9 } };
    (ldumax al h) => { Text { bytes: *b"ldumaxalh\0\0\0", length: 9 } };
    (ldumax b) => { Text { bytes: *b"ldumaxb\0\0\0\0\0", length: 7 } };
    (ldumax h) => { Text { bytes: *b"ldumaxh\0\0\0\0\0", length: 7 } };
    (ldumax l) => { Text { bytes: *b"ldumaxl\0\0\0\0\0", length: 7 } };
    (ldumax l b) => { Text { bytes: *b"ldumaxlb\0\0\0\0", length: 8 } };
    (ldumax l h) => { Text { bytes: *b"ldumaxlh\0\0\0\0", length: 8 } };
    (ldumin) => { Text { bytes: *b"ldumin\0\0\0\0\0\0", length: 6 } };
    (ldumin a) => { Text { bytes: *b"ldumina\0\0\0\0\0", length: 7 } };
    (ldumin a b) => { Text { bytes: *b"lduminab\0\0\0\0", length: 8 } };
    (ldumin a h) => { Text { bytes: *b"lduminah\0\0\0\0", length: 8 } };
    (ldumin al) => { Text { bytes: *b"lduminal\0\0\0\0", length: 8 } };
    (ldumin al b) => { Text { bytes: *b"lduminalb\0\0\0", length: 9 } };
    (ldumin al h) => { Text { bytes: *b"lduminalh\0\0\0", length: 9 } };
    (ldumin b) => { Text { bytes: *b"lduminb\0\0\0\0\0", length: 7 } };
    (ldumin h) => { Text { bytes: *b"lduminh\0\0\0\0\0", length: 7 } };
    (ldumin l) => { Text { bytes: *b"lduminl\0\0\0\0\0", length: 7 } };
    (ldumin l b) => { Text { bytes: *b"lduminlb\0\0\0\0", length: 8 } };
    (ldumin l h) => { Text { bytes: *b"lduminlh\0\0\0\0", length: 8 } };
    (ldur) => { Text { bytes: *b"ldur\0\0\0\0\0\0\0\0", length: 4 } };
    (ldurb) => { Text { bytes: *b"ldurb\0\0\0\0\0\0\0", length: 5 } };
    (ldurh) => { Text { bytes: *b"ldurh\0\0\0\0\0\0\0", length: 5 } };
    (ldursb) => { Text { bytes: *b"ldursb\0\0\0\0\0\0", length: 6 } };
    (ldursh) => { Text { bytes: *b"ldursh\0\0\0\0\0\0", length: 6 } };
    (ldursw) => { Text { bytes: *b"ldursw\0\0\0\0\0\0", length: 6 } };
    (lsl) => { Text { bytes: *b"lsl\0\0\0\0\0\0\0\0\0", length: 3 } };
    (lslv) => { Text { bytes: *b"lslv\0\0\0\0\0\0\0\0", length: 4 } };
    (lsr) => { Text { bytes: *b"lsr\0\0\0\0\0\0\0\0\0", length: 3 } };
    (lsrv) => { Text { bytes: *b"lsrv\0\0\0\0\0\0\0\0", length: 4 } };
    (madd) => { Text { bytes: *b"madd\0\0\0\0\0\0\0\0", length: 4 } };
    (mla) => { Text { bytes: *b"mla\0\0\0\0\0\0\0\0\0", length: 3 } };
    (mls) => { Text { bytes: *b"mls\0\0\0\0\0\0\0\0\0", length: 3 } };
    (mov) => { Text { bytes: *b"mov\0\0\0\0\0\0\0\0\0", length: 3 } };
    (mova) => { Text { bytes: *b"mova\0\0\0\0\0\0\0\0", length: 4 } };
    (movk) => { Text { bytes: *b"movk\0\0\0\0\0\0\0\0", length: 4 } };
    (movn) => { Text { bytes: *b"movn\0\0\0\0\0\0\0\0", length: 4 } };
    (movprfx) => { Text { bytes: *b"movprfx\0\0\0\0\0", length: 7 } };
    (movz) => { Text { bytes: *b"movz\0\0\0\0\0\0\0\0", length: 4 } };
    (mrs) => { Text { bytes: *b"mrs\0\0\0\0\0\0\0\0\0", length: 3 } };
    (msr) => { Text { bytes: *b"msr\0\0\0\0\0\0\0\0\0", length: 3 } };
    (msub) => { Text { bytes: *b"msub\0\0\0\0\0\0\0\0", length: 4 } };
    (mul) => { Text { bytes: *b"mul\0\0\0\0\0\0\0\0\0", length: 3 } };
    (mvn) => { Text { bytes: *b"mvn\0\0\0\0\0\0\0\0\0", length: 3 } };
    (nand) => { Text { bytes: *b"nand\0\0\0\0\0\0\0\0", length: 4 } };
    (nands) => { Text { bytes: *b"nands\0\0\0\0\0\0\0", length: 5 } };
    (neg) => { Text { bytes: *b"neg\0\0\0\0\0\0\0\0\0", length: 3 } };
    (nop) => { Text { bytes: *b"nop\0\0\0\0\0\0\0\0\0", length: 3 } };
    (nor) => { Text { bytes: *b"nor\0\0\0\0\0\0\0\0\0", length: 3 } };
    (nors) => { Text { bytes: *b"nors\0\0\0\0\0\0\0\0", length: 4 } };
    (not) => { Text { bytes: *b"not\0\0\0\0\0\0\0\0\0", length: 3 } };
    (orn) => { Text { bytes: *b"orn\0\0\0\0\0\0\0\0\0", length: 3 } };
    (orns) => { Text { bytes: *b"orns\0\0\0\0\0\0\0\0", length: 4 } };
    (orr) => { Text { bytes: *b"orr\0\0\0\0\0\0\0\0\0", length: 3 } };
    (orrs) => { Text { bytes: *b"orrs\0\0\0\0\0\0\0\0", length: 4 } };
    (orv) => { Text { bytes: *b"orv\0\0\0\0\0\0\0\0\0", length: 3 } };
    (pfalse) => { Text { bytes: *b"pfalse\0\0\0\0\0\0", length: 6 } };
    (ptest) => { Text { bytes: *b"ptest\0\0\0\0\0\0\0", length: 5 } };
    (ptrue) => { Text { bytes: *b"ptrue\0\0\0\0\0\0\0", length: 5 } };
    (rbit) => { Text { bytes: *b"rbit\0\0\0\0\0\0\0\0", length: 4 } };
    (rdffr) => { Text { bytes: *b"rdffr\0\0\0\0\0\0\0", length: 5 } };
    (rdsvl) => { Text { bytes: *b"rdsvl\0\0\0\0\0\0\0", length: 5 } };
    (rdvl) => { Text { bytes: *b"rdvl\0\0\0\0\0\0\0\0", length: 4 } };
    (ret) => { Text { bytes: *b"ret\0\0\0\0\0\0\0\0\0", length: 3 } };
    (rev) => { Text { bytes: *b"rev\0\0\0\0\0\0\0\0\0", length: 3 } };
    (rev16) => { Text { bytes: *b"rev16\0\0\0\0\0\0\0", length: 5 } };
    (rev32) => { Text { bytes: *b"rev32\0\0\0\0\0\0\0", length: 5 } };
    (rorv) => { Text { bytes: *b"rorv\0\0\0\0\0\0\0\0", length: 4 } };
    (sabd) => { Text { bytes: *b"sabd\0\0\0\0\0\0\0\0", length: 4 } };
    (saddlb) => { Text { bytes: *b"saddlb\0\0\0\0\0\0", length: 6 } };
    (saddlt) => { Text { bytes: *b"saddlt\0\0\0\0\0\0", length: 6 } };
    (saddv) => { Text { bytes: *b"saddv\0\0\0\0\0\0\0", length: 5 } };
    (sbc) => { Text { bytes: *b"sbc\0\0\0\0\0\0\0\0\0", length: 3 } };
    (sbcs) => { Text { bytes: *b"sbcs\0\0\0\0\0\0\0\0", length: 4 } };
    (sbfm) => { Text { bytes: *b"sbfm\0\0\0\0\0\0\0\0", length: 4 } };
    (sdiv) => { Text { bytes: *b"sdiv\0\0\0\0\0\0\0\0", length: 4 } };
    (sel) => { Text { bytes: *b"sel\0\0\0\0\0\0\0\0\0", length: 3 } };
    (setffr) => { Text { bytes: *b"setffr\0\0\0\0\0\0", length: 6 } };
    (smaddl) => { Text { bytes: *b"smaddl\0\0\0\0\0\0", length: 6 } };
    (smax) => { Text { bytes: *b"smax\0\0\0\0\0\0\0\0", length: 4 } };
    (smaxv) => { Text { bytes: *b"smaxv\0\0\0\0\0\0\0", length: 5 } };
    (smin) => { Text { bytes: *b"smin\0\0\0\0\0\0\0\0", length: 4 } };
    (sminv) => { Text { bytes: *b"sminv\0\0\0\0\0\0\0", length: 5 } };
    (smlalb) => { Text { bytes: *b"smlalb\0\0\0\0\0\0", length: 6 } };
    (smlalt) => { Text { bytes: *b"smlalt\0\0\0\0\0\0", length: 6 } };
    (smopa) => { Text { bytes: *b"smopa\0\0\0\0\0\0\0", length: 5 } };
    (smops) => { Text { bytes: *b"smops\0\0\0\0\0\0\0", length: 5 } };
    (smstart) => { Text { bytes: *b"smstart\0\0\0\0\0", length: 7 } };
    (smstop) => { Text { bytes: *b"smstop\0\0\0\0\0\0", length: 6 } };
    (smsubl) => { Text { bytes: *b"smsubl\0\0\0\0\0\0", length: 6 } };
    (smulh) => { Text { bytes: *b"smulh\0\0\0\0\0\0\0", length: 5 } };
    (smullb) => { Text { bytes: *b"smullb\0\0\0\0\0\0", length: 6 } };
    (smullt) => { Text { bytes: *b"smullt\0\0\0\0\0\0", length: 6 } };
    (sqadd) => { Text { bytes: *b"sqadd\0\0\0\0\0\0\0", length: 5 } };
    (sqsub) => { Text { bytes: *b"sqsub\0\0\0\0\0\0\0", length: 5 } };
    (st1b) => { Text { bytes: *b"st1b\0\0\0\0\0\0\0\0", length: 4 } };
    (st1d) => { Text { bytes: *b"st1d\0\0\0\0\0\0\0\0", length: 4 } };
    (st1h) => { Text { bytes: *b"st1h\0\0\0\0\0\0\0\0", length: 4 } };
    (st1q) => { Text { bytes: *b"st1q\0\0\0\0\0\0\0\0", length: 4 } };
    (st1w) => { Text { bytes: *b"st1w\0\0\0\0\0\0\0\0", length: 4 } };
    (stlr) => { Text { bytes: *b"stlr\0\0\0\0\0\0\0\0", length: 4 } };
    (stlr b) => { Text { bytes: *b"stlrb\0\0\0\0\0\0\0", length: 5 } };
    (stlr h) => { Text { bytes: *b"stlrh\0\0\0\0\0\0\0", length: 5 } };
    (stp) => { Text { bytes: *b"stp\0\0\0\0\0\0\0\0\0", length: 3 } };
    (str) => { Text { bytes: *b"str\0\0\0\0\0\0\0\0\0", length: 3 } };
    (strb) => { Text { bytes: *b"strb\0\0\0\0\0\0\0\0", length: 4 } };
    (strh) => { Text { bytes: *b"strh\0\0\0\0\0\0\0\0", length: 4 } };
    (stur) => { Text { bytes: *b"stur\0\0\0\0\0\0\0\0", length: 4 } };
    (sturb) => { Text { bytes: *b"sturb\0\0\0\0\0\0\0", length: 5 } };
    (sturh) => { Text { bytes: *b"sturh\0\0\0\0\0\0\0", length: 5 } };
    (sub) => { Text { bytes: *b"sub\0\0\0\0\0\0\0\0\0", length: 3 } };
    (subr) => { Text { bytes: *b"subr\0\0\0\0\0\0\0\0", length: 4 } };
    (subs) => { Text { bytes: *b"subs\0\0\0\0\0\0\0\0", length: 4 } };
    (sumopa) => { Text { bytes: *b"sumopa\0\0\0\0\0\0", length: 6 } };
    (sumops) => { Text { bytes: *b"sumops\0\0\0\0\0\0", length: 6 } };
    (sunpkhi) => { Text { bytes: *b"sunpkhi\0\0\0\0\0", length: 7 } };
    (sunpklo) => { Text { bytes: *b"sunpklo\0\0\0\0\0", length: 7 } };
    (svc) => { Text { bytes: *b"svc\0\0\0\0\0\0\0\0\0", length: 3 } };
    (swp) => { Text { bytes: *b"swp\0\0\0\0\0\0\0\0\0", length: 3 } };
    (swp a) => { Text { bytes: *b"swpa\0\0\0\0\0\0\0\0", length: 4 } };
    (swp a b) => { Text { bytes: *b"swpab\0\0\0\0\0\0\0", length: 5 } };
    (swp a h) => { Text { bytes: *b"swpah\0\0\0\0\0\0\0", length: 5 } };
    (swp al) => { Text { bytes: *b"swpal\0\0\0\0\0\0\0", length: 5 } };
    (swp al b) => { Text { bytes: *b"swpalb\0\0\0\0\0\0", length: 6 } };
    (swp al h) => { Text { bytes: *b"swpalh\0\0\0\0\0\0", length: 6 } };
    (swp b) => { Text { bytes: *b"swpb\0\0\0\0\0\0\0\0", length: 4 } };
    (swp h) => { Text { bytes: *b"swph\0\0\0\0\0\0\0\0", length: 4 } };
    (swp l) => { Text { bytes: *b"swpl\0\0\0\0\0\0\0\0", length: 4 } };
    (swp l b) => { Text { bytes: *b"swplb\0\0\0\0\0\0\0", length: 5 } };
    (swp l h) => { Text { bytes: *b"swplh\0\0\0\0\0\0\0", length: 5 } };
    (sxtb) => { Text { bytes: *b"sxtb\0\0\0\0\0\0\0\0", length: 4 } };
    (sxth) => { Text { bytes: *b"sxth\0\0\0\0\0\0\0\0", length: 4 } };
    (sxtw) => { Text { bytes: *b"sxtw\0\0\0\0\0\0\0\0", length: 4 } };
    (tbl) => { Text { bytes: *b"tbl\0\0\0\0\0\0\0\0\0", length: 3 } };
    (tbnz) => { Text { bytes: *b"tbnz\0\0\0\0\0\0\0\0", length: 4 } };
    (tbz) => { Text { bytes: *b"tbz\0\0\0\0\0\0\0\0\0", length: 3 } };
    (trn1) => { Text { bytes: *b"trn1\0\0\0\0\0\0\0\0", length: 4 } };
    (trn2) => { Text { bytes: *b"trn2\0\0\0\0\0\0\0\0", length: 4 } };
    (tst) => { Text { bytes: *b"tst\0\0\0\0\0\0\0\0\0", length: 3 } };
    (uabd) => { Text { bytes: *b"uabd\0\0\0\0\0\0\0\0", length: 4 } };
    (uaddlb) => { Text { bytes: *b"uaddlb\0\0\0\0\0\0", length: 6 } };
    (uaddlt) => { Text { bytes: *b"uaddlt\0\0\0\0\0\0", length: 6 } };
    (uaddv) => { Text { bytes: *b"uaddv\0\0\0\0\0\0\0", length: 5 } };
    (ubfm) => { Text { bytes: *b"ubfm\0\0\0\0\0\0\0\0", length: 4 } };
    (udf) => { Text { bytes: *b"udf\0\0\0\0\0\0\0\0\0", length: 3 } };
    (udiv) => { Text { bytes: *b"udiv\0\0\0\0\0\0\0\0", length: 4 } };
    (umaddl) => { Text { bytes: *b"umaddl\0\0\0\0\0\0", length: 6 } };
    (umax) => { Text { bytes: *b"umax\0\0\0\0\0\0\0\0", length: 4 } };
    (umaxv) => { Text { bytes: *b"umaxv\0\0\0\0\0\0\0", length: 5 } };
    (umin) => { Text { bytes: *b"umin\0\0\0\0\0\0\0\0", length: 4 } };
    (uminv) => { Text { bytes: *b"uminv\0\0\0\0\0\0\0", length: 5 } };
    (umlalb) => { Text { bytes: *b"umlalb\0\0\0\0\0\0", length: 6 } };
    (umlalt) => { Text { bytes: *b"umlalt\0\0\0\0\0\0", length: 6 } };
    (umopa) => { Text { bytes: *b"umopa\0\0\0\0\0\0\0", length: 5 } };
    (umops) => { Text { bytes: *b"umops\0\0\0\0\0\0\0", length: 5 } };
    (umsubl) => { Text { bytes: *b"umsubl\0\0\0\0\0\0", length: 6 } };
    (umulh) => { Text { bytes: *b"umulh\0\0\0\0\0\0\0", length: 5 } };
    (umullb) => { Text { bytes: *b"umullb\0\0\0\0\0\0", length: 6 } };
    (umullt) => { Text { bytes: *b"umullt\0\0\0\0\0\0", length: 6 } };
    (uqadd) => { Text { bytes: *b"uqadd\0\0\0\0\0\0\0", length: 5 } };
    (uqsub) => { Text { bytes: *b"uqsub\0\0\0\0\0\0\0", length: 5 } };
    (usmopa) => { Text { bytes: *b"usmopa\0\0\0\0\0\0", length: 6 } };
    (usmops) => { Text { bytes: *b"usmops\0\0\0\0\0\0", length: 6 } };
    (uunpkhi) => { Text { bytes: *b"uunpkhi\0\0\0\0\0", length: 7 } };
    (uunpklo) => { Text { bytes: *b"uunpklo\0\0\0\0\0", length: 7 } };
    (uxtb) => { Text { bytes: *b"uxtb\0\0\0\0\0\0\0\0", length: 4 } };
    (uxth) => { Text { bytes: *b"uxth\0\0\0\0\0\0\0\0", length: 4 } };
    (uxtw) => { Text { bytes: *b"uxtw\0\0\0\0\0\0\0\0", length: 4 } };
    (uzp1) => { Text { bytes: *b"uzp1\0\0\0\0\0\0\0\0", length: 4 } };
    (uzp2) => { Text { bytes: *b"uzp2\0\0\0\0\0\0\0\0", length: 4 } };
    (whilelo) => { Text { bytes: *b"whilelo\0\0\0\0\0", length: 7 } };
    (whilelt) => { Text { bytes: *b"whilelt\0\0\0\0\0", length: 7 } };
    (wrffr) => { Text { bytes: *b"wrffr\0\0\0\0\0\0\0", length: 5 } };
    (zero) => { Text { bytes: *b"zero\0\0\0\0\0\0\0\0", length: 4 } };
    (zip1) => { Text { bytes: *b"zip1\0\0\0\0\0\0\0\0", length: 4 } };
    (zip2) => { Text { bytes: *b"zip2\0\0\0\0\0\0\0\0", length: 4 } };
}

// All of them, in order.
macro_rules! all_mnemonics {
    () => {
        [
            mnemonic!(abs),
            mnemonic!(adc),
            mnemonic!(adcs),
            mnemonic!(add),
            mnemonic!(addha),
            mnemonic!(addpl),
            mnemonic!(adds),
            mnemonic!(addspl),
            mnemonic!(addsvl),
            mnemonic!(addva),
            mnemonic!(addvl),
            mnemonic!(adr),
            mnemonic!(adrp),
            mnemonic!(and),
            mnemonic!(ands),
            mnemonic!(andv),
            mnemonic!(asr),
            mnemonic!(asrv),
            mnemonic!(b),
            mnemonic!(b.al),
            mnemonic!(b.cc),
            mnemonic!(b.cs),
            mnemonic!(b.eq),
            mnemonic!(b.ge),
            mnemonic!(b.gt),
            mnemonic!(b.hi),
            mnemonic!(b.le),
            mnemonic!(b.ls),
            mnemonic!(b.lt),
            mnemonic!(b.mi),
            mnemonic!(b.ne),
            mnemonic!(b.nv),
            mnemonic!(b.pl),
            mnemonic!(b.vc),
            mnemonic!(b.vs),
            mnemonic!(bcax),
            mnemonic!(bfm),
            mnemonic!(bic),
            mnemonic!(bics),
            mnemonic!(bl),
            mnemonic!(blr),
            mnemonic!(br),
            mnemonic!(brk),
            mnemonic!(bsl),
            mnemonic!(cas),
            mnemonic!(cas a),
            mnemonic!(cas a b),
            mnemonic!(cas a h),
            mnemonic!(cas al),
            mnemonic!(cas al b),
            mnemonic!(cas al h),
            mnemonic!(cas b),
            mnemonic!(cas h),
            mnemonic!(cas l),
            mnemonic!(cas l b),
            mnemonic!(cas l h),
            mnemonic!(cbnz),
            mnemonic!(cbz),
            mnemonic!(ccmn),
            mnemonic!(ccmp),
            mnemonic!(cls),
            mnemonic!(clz),
            mnemonic!(cmn),
            mnemonic!(cmp),
            mnemonic!(cmpeq),
            mnemonic!(cmpge),
            mnemonic!(cmpgt),
            mnemonic!(cmphi),
            mnemonic!(cmphs),
            mnemonic!(cmple),
            mnemonic!(cmplt),
            mnemonic!(cmpne),
            mnemonic!(cnot),
            mnemonic!(cnt),
            mnemonic!(cntb),
            mnemonic!(cntd),
            mnemonic!(cnth),
            mnemonic!(cntp),
            mnemonic!(cntw),
            mnemonic!(cpy),
            mnemonic!(csel),
            mnemonic!(cset),
            mnemonic!(csinc),
            mnemonic!(csinv),
            mnemonic!(csneg),
            mnemonic!(decb),
            mnemonic!(decd),
            mnemonic!(dech),
            mnemonic!(decw),
            mnemonic!(dmb),
            mnemonic!(dsb),
            mnemonic!(dup),
            mnemonic!(eon),
            mnemonic!(eor),
            mnemonic!(eor3),
            mnemonic!(eors),
            mnemonic!(eorv),
            mnemonic!(ext),
            mnemonic!(extr),
            mnemonic!(hint),
            mnemonic!(incb),
            mnemonic!(incd),
            mnemonic!(inch),
            mnemonic!(incw),
            mnemonic!(index),
            mnemonic!(isb),
            mnemonic!(lasta),
            mnemonic!(lastb),
            mnemonic!(ld1b),
            mnemonic!(ld1d),
            mnemonic!(ld1h),
            mnemonic!(ld1q),
            mnemonic!(ld1sb),
            mnemonic!(ld1sh),
            mnemonic!(ld1sw),
            mnemonic!(ld1w),
            mnemonic!(ldadd),
            mnemonic!(ldadd a),
            mnemonic!(ldadd a b),
            mnemonic!(ldadd a h),
            mnemonic!(ldadd al),
            mnemonic!(ldadd al b),
            mnemonic!(ldadd al h),
            mnemonic!(ldadd b),
            mnemonic!(ldadd h),
            mnemonic!(ldadd l),
            mnemonic!(ldadd l b),
            mnemonic!(ldadd l h),
            mnemonic!(ldar),
            mnemonic!(ldar b),
            mnemonic!(ldar h),
            mnemonic!(ldclr),
            mnemonic!(ldclr a),
            mnemonic!(ldclr a b),
            mnemonic!(ldclr a h),
            mnemonic!(ldclr al),
            mnemonic!(ldclr al b),
            mnemonic!(ldclr al h),
            mnemonic!(ldclr b),
            mnemonic!(ldclr h),
            mnemonic!(ldclr l),
            mnemonic!(ldclr l b),
            mnemonic!(ldclr l h),
            mnemonic!(ldeor),
            mnemonic!(ldeor a),
            mnemonic!(ldeor a b),
            mnemonic!(ldeor a h),
            mnemonic!(ldeor al),
            mnemonic!(ldeor al b),
            mnemonic!(ldeor al h),
            mnemonic!(ldeor b),
            mnemonic!(ldeor h),
            mnemonic!(ldeor l),
            mnemonic!(ldeor l b),
            mnemonic!(ldeor l h),
            mnemonic!(ldp),
            mnemonic!(ldr),
            mnemonic!(ldrb),
            mnemonic!(ldrh),
            mnemonic!(ldrsb),
            mnemonic!(ldrsh),
            mnemonic!(ldrsw),
            mnemonic!(ldset),
            mnemonic!(ldset a),
            mnemonic!(ldset a b),
            mnemonic!(ldset a h),
            mnemonic!(ldset al),
            mnemonic!(ldset al b),
            mnemonic!(ldset al h),
            mnemonic!(ldset b),
            mnemonic!(ldset h),
            mnemonic!(ldset l),
            mnemonic!(ldset l b),
            mnemonic!(ldset l h),
            mnemonic!(ldsmax),
            mnemonic!(ldsmax a),
            mnemonic!(ldsmax a b),
            mnemonic!(ldsmax a h),
            mnemonic!(ldsmax al),
            mnemonic!(ldsmax al b),
            mnemonic!(ldsmax al h),
            mnemonic!(ldsmax b),
            mnemonic!(ldsmax h),
            mnemonic!(ldsmax l),
            mnemonic!(ldsmax l b),
            mnemonic!(ldsmax l h),
            mnemonic!(ldsmin),
            mnemonic!(ldsmin a),
            mnemonic!(ldsmin a b),
            mnemonic!(ldsmin a h),
            mnemonic!(ldsmin al),
            mnemonic!(ldsmin al b),
            mnemonic!(ldsmin al h),
            mnemonic!(ldsmin b),
            mnemonic!(ldsmin h),
            mnemonic!(ldsmin l),
            mnemonic!(ldsmin l b),
            mnemonic!(ldsmin l h),
            mnemonic!(ldumax),
            mnemonic!(ldumax a),
            mnemonic!(ldumax a b),
            mnemonic!(ldumax a h),
            mnemonic!(ldumax al),
            mnemonic!(ldumax al b),
            mnemonic!(ldumax al h),
            mnemonic!(ldumax b),
            mnemonic!(ldumax h),
            mnemonic!(ldumax l),
            mnemonic!(ldumax l b),
            mnemonic!(ldumax l h),
            mnemonic!(ldumin),
            mnemonic!(ldumin a),
            mnemonic!(ldumin a b),
            mnemonic!(ldumin a h),
            mnemonic!(ldumin al),
            mnemonic!(ldumin al b),
            mnemonic!(ldumin al h),
            mnemonic!(ldumin b),
            mnemonic!(ldumin h),
            mnemonic!(ldumin l),
            mnemonic!(ldumin l b),
            mnemonic!(ldumin l h),
            mnemonic!(ldur),
            mnemonic!(ldurb),
            mnemonic!(ldurh),
            mnemonic!(ldursb),
            mnemonic!(ldursh),
            mnemonic!(ldursw),
            mnemonic!(lsl),
            mnemonic!(lslv),
            mnemonic!(lsr),
            mnemonic!(lsrv),
            mnemonic!(madd),
            mnemonic!(mla),
            mnemonic!(mls),
            mnemonic!(mov),
            mnemonic!(mova),
            mnemonic!(movk),
            mnemonic!(movn),
            mnemonic!(movprfx),
            mnemonic!(movz),
            mnemonic!(mrs),
            mnemonic!(msr),
            mnemonic!(msub),
            mnemonic!(mul),
            mnemonic!(mvn),
            mnemonic!(nand),
            mnemonic!(nands),
            mnemonic!(neg),
            mnemonic!(nop),
            mnemonic!(nor),
            mnemonic!(nors),
            mnemonic!(not),
            mnemonic!(orn),
            mnemonic!(orns),
            mnemonic!(orr),
            mnemonic!(orrs),
            mnemonic!(orv),
            mnemonic!(pfalse),
            mnemonic!(ptest),
            mnemonic!(ptrue),
            mnemonic!(rbit),
            mnemonic!(rdffr),
            mnemonic!(rdsvl),
            mnemonic!(rdvl),
            mnemonic!(ret),
            mnemonic!(rev),
            mnemonic!(rev16),
            mnemonic!(rev32),
            mnemonic!(rorv),
            mnemonic!(sabd),
            mnemonic!(saddlb),
            mnemonic!(saddlt),
            mnemonic!(saddv),
            mnemonic!(sbc),
            mnemonic!(sbcs),
            mnemonic!(sbfm),
            mnemonic!(sdiv),
            mnemonic!(sel),
            mnemonic!(setffr),
            mnemonic!(smaddl),
            mnemonic!(smax),
            mnemonic!(smaxv),
            mnemonic!(smin),
            mnemonic!(sminv),
            mnemonic!(smlalb),
            mnemonic!(smlalt),
            mnemonic!(smopa),
            mnemonic!(smops),
            mnemonic!(smstart),
            mnemonic!(smstop),
            mnemonic!(smsubl),
            mnemonic!(smulh),
            mnemonic!(smullb),
            mnemonic!(smullt),
            mnemonic!(sqadd),
            mnemonic!(sqsub),
            mnemonic!(st1b),
            mnemonic!(st1d),
            mnemonic!(st1h),
            mnemonic!(st1q),
            mnemonic!(st1w),
            mnemonic!(stlr),
            mnemonic!(stlr b),
            mnemonic!(stlr h),
            mnemonic!(stp),
            mnemonic!(str),
            mnemonic!(strb),
            mnemonic!(strh),
            mnemonic!(stur),
            mnemonic!(sturb),
            mnemonic!(sturh),
            mnemonic!(sub),
            mnemonic!(subr),
            mnemonic!(subs),
            mnemonic!(sumopa),
            mnemonic!(sumops),
            mnemonic!(sunpkhi),
            mnemonic!(sunpklo),
            mnemonic!(svc),
            mnemonic!(swp),
            mnemonic!(swp a),
            mnemonic!(swp a b),
            mnemonic!(swp a h),
            mnemonic!(swp al),
            mnemonic!(swp al b),
            mnemonic!(swp al h),
            mnemonic!(swp b),
            mnemonic!(swp h),
            mnemonic!(swp l),
            mnemonic!(swp l b),
            mnemonic!(swp l h),
            mnemonic!(sxtb),
            mnemonic!(sxth),
            mnemonic!(sxtw),
            mnemonic!(tbl),
            mnemonic!(tbnz),
            mnemonic!(tbz),
            mnemonic!(trn1),
            mnemonic!(trn2),
            mnemonic!(tst),
            mnemonic!(uabd),
            mnemonic!(uaddlb),
            mnemonic!(uaddlt),
            mnemonic!(uaddv),
            mnemonic!(ubfm),
            mnemonic!(udf),
            mnemonic!(udiv),
            mnemonic!(umaddl),
            mnemonic!(umax),
            mnemonic!(umaxv),
            mnemonic!(umin),
            mnemonic!(uminv),
            mnemonic!(umlalb),
            mnemonic!(umlalt),
            mnemonic!(umopa),
            mnemonic!(umops),
            mnemonic!(umsubl),
            mnemonic!(umulh),
            mnemonic!(umullb),
            mnemonic!(umullt),
            mnemonic!(uqadd),
            mnemonic!(uqsub),
            mnemonic!(usmopa),
            mnemonic!(usmops),
            mnemonic!(uunpkhi),
            mnemonic!(uunpklo),
            mnemonic!(uxtb),
            mnemonic!(uxth),
            mnemonic!(uxtw),
            mnemonic!(uzp1),
            mnemonic!(uzp2),
            mnemonic!(whilelo),
            mnemonic!(whilelt),
            mnemonic!(wrffr),
            mnemonic!(zero),
            mnemonic!(zip1),
            mnemonic!(zip2),
        ]
    };
}

pub(crate) use all_mnemonics;
pub(crate) use mnemonic;
