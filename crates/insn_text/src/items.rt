//! The operands of the shapes, as `make_table.py` writes them.
use crate::item::{Item, Kind, Rule, VectorFile};
use crate::operands::{
    HW_IMM16, IMMR_IMMS, LONG_SHIFT, N_IMMR_IMMS, SHORT_HW_IMM16, SHORT_SHIFT, W, W_SP, X, X_SP,
    operand, operand_of, short,
};
use crate::vector_operands::{
    by_element_size, by_low_size, by_size, index, low_part, low_predicate, predicate, right,
    signed, tile, up_to, vector, vector_operand, word,
};
use a64_table::fields as scalar_fields;
use insn_forms::Field;
use sve_table::fields as vector_fields;

macro_rules! items {
    ($($($item:ident)+;)*) => {
        [$($(operand!($item)),+),*]
    };
}

/// The operands of the shapes of `ItemList::Scalar`, one list after another; beside a list is its index.
pub static ITEMS: [Item; 1227] = items! {
    xd comma xn comma xm; // 0
    wd comma wn comma wm; // 5
    xd_sp comma xn_sp comma imm12; // 10
    wd_sp comma wn_sp comma imm12; // 15
    xd_sp comma xn_sp comma imm12 comma lsl twelve; // 20
    wd_sp comma wn_sp comma imm12 comma lsl twelve; // 28
    xd comma xn comma xm comma shift3 amount6; // 36
    wd comma wn comma wm comma shift3 amount5; // 44
    xd_sp comma xn_sp comma xm comma uxtx; // 52
    xd_sp comma xn_sp comma xm comma uxtx amount4; // 59
    xd_sp comma xn_sp comma xm comma sxtx; // 67
    xd_sp comma xn_sp comma xm comma sxtx amount4; // 74
    xd_sp comma xn_sp comma wm comma uxtb_to_uxtw; // 82
    xd_sp comma xn_sp comma wm comma uxtb_to_uxtw amount4; // 89
    xd_sp comma xn_sp comma wm comma sxtb_to_sxtw; // 97
    xd_sp comma xn_sp comma wm comma sxtb_to_sxtw amount4; // 104
    wd_sp comma wn_sp comma wm comma extend; // 112
    wd_sp comma wn_sp comma wm comma extend amount4; // 119
    xd comma xn_sp comma imm12; // 127
    wd comma wn_sp comma imm12; // 132
    xd comma xn_sp comma imm12 comma lsl twelve; // 137
    wd comma wn_sp comma imm12 comma lsl twelve; // 145
    xd comma xn_sp comma xm comma uxtx; // 153
    xd comma xn_sp comma xm comma uxtx amount4; // 160
    xd comma xn_sp comma xm comma sxtx; // 168
    xd comma xn_sp comma xm comma sxtx amount4; // 175
    xd comma xn_sp comma wm comma uxtb_to_uxtw; // 183
    xd comma xn_sp comma wm comma uxtb_to_uxtw amount4; // 190
    xd comma xn_sp comma wm comma sxtb_to_sxtw; // 198
    xd comma xn_sp comma wm comma sxtb_to_sxtw amount4; // 205
    wd comma wn_sp comma wm comma extend; // 213
    wd comma wn_sp comma wm comma extend amount4; // 220
    xd comma bytes21; // 228
    xd comma pages21; // 231
    xd comma xn comma xm comma shift4 amount6; // 234
    wd comma wn comma wm comma shift4 amount5; // 242
    xd_sp comma xn comma xmask; // 250
    wd_sp comma wn comma wmask; // 255
    xd comma xn comma xmask; // 260
    wd comma wn comma wmask; // 265
    xd comma xn comma immr6; // 270
    wd comma wn comma immr5; // 275
    words26; // 280
    words19; // 281
    xd comma xn comma immr6 comma imms6; // 282
    wd comma wn comma immr5 comma imms5; // 289
    xn; // 296
    imm16; // 297
    ws comma wt comma open xn_sp close; // 298
    xs comma xt comma open xn_sp close; // 305
    xt comma words19; // 312
    wt comma words19; // 315
    xn comma xm comma flags comma condition; // 318
    wn comma wm comma flags comma condition; // 325
    xn comma imm5 comma flags comma condition; // 332
    wn comma imm5 comma flags comma condition; // 339
    xd comma xn; // 346
    wd comma wn; // 349
    xn_sp comma imm12; // 352
    wn_sp comma imm12; // 355
    xn_sp comma imm12 comma lsl twelve; // 358
    wn_sp comma imm12 comma lsl twelve; // 364
    xn comma xm; // 370
    wn comma wm; // 373
    xn comma xm comma shift3 amount6; // 376
    wn comma wm comma shift3 amount5; // 382
    xn_sp comma xm comma uxtx; // 388
    xn_sp comma xm comma uxtx amount4; // 393
    xn_sp comma xm comma sxtx; // 399
    xn_sp comma xm comma sxtx amount4; // 404
    xn_sp comma wm comma uxtb_to_uxtw; // 410
    xn_sp comma wm comma uxtb_to_uxtw amount4; // 415
    xn_sp comma wm comma sxtb_to_sxtw; // 421
    xn_sp comma wm comma sxtb_to_sxtw amount4; // 426
    wn_sp comma wm comma extend; // 432
    wn_sp comma wm comma extend amount4; // 437
    xd comma xn comma xm comma condition; // 443
    wd comma wn comma wm comma condition; // 450
    xd comma opposite; // 457
    wd comma opposite; // 460
    crm; // 463
    xd comma xn comma xm comma imms6; // 464
    wd comma wn comma wm comma imms5; // 471
    hint; // 478
    wt comma open xn_sp close; // 479
    xt comma open xn_sp close; // 484
    wt comma wt2_not_t comma open xn_sp close; // 489
    wt comma wt2_not_t comma open xn_sp comma imm7_4 close; // 496
    wt comma wt2_not_t comma open xn_sp_alone close comma imm7_4; // 505
    wt comma wt2_not_t comma open xn_sp_alone comma imm7_4 close bang; // 514
    xt comma xt2_not_t comma open xn_sp close; // 524
    xt comma xt2_not_t comma open xn_sp comma imm7_8 close; // 531
    xt comma xt2_not_t comma open xn_sp_alone close comma imm7_8; // 540
    xt comma xt2_not_t comma open xn_sp_alone comma imm7_8 close bang; // 549
    wt comma open xn_sp comma imm12_4 close; // 559
    wt comma open xn_sp_not_t close comma imm9; // 566
    wt comma open xn_sp_not_t comma imm9 close bang; // 573
    wt comma open xn_sp comma xm close; // 581
    wt comma open xn_sp comma xm comma lsl amount_is_2 close; // 588
    wt comma open xn_sp comma wm comma uxtw close; // 598
    wt comma open xn_sp comma wm comma uxtw amount_is_2 close; // 607
    wt comma open xn_sp comma wm comma sxtw close; // 617
    wt comma open xn_sp comma wm comma sxtw amount_is_2 close; // 626
    wt comma open xn_sp comma xm comma sxtx close; // 636
    wt comma open xn_sp comma xm comma sxtx amount_is_2 close; // 645
    xt comma open xn_sp comma imm12_8 close; // 655
    xt comma open xn_sp_not_t close comma imm9; // 662
    xt comma open xn_sp_not_t comma imm9 close bang; // 669
    xt comma open xn_sp comma xm close; // 677
    xt comma open xn_sp comma xm comma lsl amount_is_3 close; // 684
    xt comma open xn_sp comma wm comma uxtw close; // 694
    xt comma open xn_sp comma wm comma uxtw amount_is_3 close; // 703
    xt comma open xn_sp comma wm comma sxtw close; // 713
    xt comma open xn_sp comma wm comma sxtw amount_is_3 close; // 722
    xt comma open xn_sp comma xm comma sxtx close; // 732
    xt comma open xn_sp comma xm comma sxtx amount_is_3 close; // 741
    wt comma open xn_sp comma imm12 close; // 751
    wt comma open xn_sp comma xm comma lsl amount_is_0 close; // 758
    wt comma open xn_sp comma wm comma uxtw amount_is_0 close; // 768
    wt comma open xn_sp comma wm comma sxtw amount_is_0 close; // 778
    wt comma open xn_sp comma xm comma sxtx amount_is_0 close; // 788
    wt comma open xn_sp comma imm12_2 close; // 798
    wt comma open xn_sp comma xm comma lsl amount_is_1 close; // 805
    wt comma open xn_sp comma wm comma uxtw amount_is_1 close; // 815
    wt comma open xn_sp comma wm comma sxtw amount_is_1 close; // 825
    wt comma open xn_sp comma xm comma sxtx amount_is_1 close; // 835
    xt comma open xn_sp comma imm12 close; // 845
    xt comma open xn_sp comma xm comma lsl amount_is_0 close; // 852
    xt comma open xn_sp comma wm comma uxtw amount_is_0 close; // 862
    xt comma open xn_sp comma wm comma sxtw amount_is_0 close; // 872
    xt comma open xn_sp comma xm comma sxtx amount_is_0 close; // 882
    xt comma open xn_sp comma imm12_2 close; // 892
    xt comma open xn_sp comma xm comma lsl amount_is_1 close; // 899
    xt comma open xn_sp comma wm comma uxtw amount_is_1 close; // 909
    xt comma open xn_sp comma wm comma sxtw amount_is_1 close; // 919
    xt comma open xn_sp comma xm comma sxtx amount_is_1 close; // 929
    xt comma open xn_sp comma imm12_4 close; // 939
    xt comma open xn_sp comma xm comma lsl amount_is_2 close; // 946
    xt comma open xn_sp comma wm comma uxtw amount_is_2 close; // 956
    xt comma open xn_sp comma wm comma sxtw amount_is_2 close; // 966
    xt comma open xn_sp comma xm comma sxtx amount_is_2 close; // 976
    wt comma open xn_sp comma imm9 close; // 986
    xt comma open xn_sp comma imm9 close; // 993
    xd comma xn comma xshift_left; // 1000
    wd comma wn comma wshift_left; // 1005
    xd comma xn comma xm comma xa; // 1010
    wd comma wn comma wm comma wa; // 1017
    xd comma xm; // 1024
    wd comma wm; // 1027
    sp comma xn_sp; // 1030
    wsp comma wn_sp; // 1033
    xd_sp comma sp; // 1036
    wd_sp comma wsp; // 1039
    xd comma xhalfword; // 1042
    wd comma whalfword; // 1045
    xd comma xinverted_halfword; // 1048
    wd comma winverted_halfword; // 1051
    xd_sp comma xmask_or_negative; // 1054
    wd_sp comma wmask_or_negative; // 1057
    xd comma imm16; // 1060
    wd comma imm16; // 1063
    xd comma imm16 comma lsl halfword_shift64; // 1066
    wd comma imm16 comma lsl halfword_shift32; // 1072
    xt comma nzcv; // 1078
    xt comma tpidr_el0; // 1081
    xt comma tpidr2_el0; // 1084
    xt comma svcr; // 1087
    nzcv comma xt; // 1090
    tpidr_el0 comma xt; // 1093
    tpidr2_el0 comma xt; // 1096
    svcr comma xt; // 1099
    xd comma xm comma shift4 amount6; // 1102
    wd comma wm comma shift4 amount5; // 1108
    xd comma xm comma shift3 amount6; // 1114
    wd comma wm comma shift3 amount5; // 1120
    xd comma wn comma wm comma xa; // 1126
    wt comma wt2 comma open xn_sp close; // 1133
    wt comma wt2 comma open xn_sp comma imm7_4 close; // 1140
    wt comma wt2 comma open xn_sp_alone close comma imm7_4; // 1149
    wt comma wt2 comma open xn_sp_alone comma imm7_4 close bang; // 1158
    xt comma xt2 comma open xn_sp close; // 1168
    xt comma xt2 comma open xn_sp comma imm7_8 close; // 1175
    xt comma xt2 comma open xn_sp_alone close comma imm7_8; // 1184
    xt comma xt2 comma open xn_sp_alone comma imm7_8 close bang; // 1193
    xt comma bit comma words14; // 1203
    xn comma xm comma shift4 amount6; // 1208
    wn comma wm comma shift4 amount5; // 1214
    xn comma xmask; // 1220
    wn comma wmask; // 1223
    udf_imm16; // 1226
};

/// The operands of the shapes of `ItemList::Vector`, one list after another; beside a list is its index.
pub static VECTOR_ITEMS: [Item; 730] = items! {
    zd_t comma pg slash m comma zn_t; // 0
    zd_t comma zn_t comma zm_t; // 7
    zd_t comma pg slash m comma zd_t comma zn_t; // 12
    zd_t comma zd_t comma imm8; // 21
    zd_h comma zd_h comma imm8 comma lsl eight; // 26
    zd_sd comma zd_sd comma imm8 comma lsl eight; // 34
    xd_sp comma xm_sp comma signed6; // 42
    pd_b comma pg4 slash z comma pn_b comma pm_b; // 47
    zd_d comma zn_d comma zm_d; // 56
    vd_b comma pg comma zn_b; // 61
    vd_h comma pg comma zn_h; // 66
    vd_s comma pg comma zn_s; // 71
    vd_d comma pg comma zn_d; // 76
    zd_b comma zn_b comma right_b; // 81
    zd_h comma zn_h comma right_h; // 86
    zd_s comma zn_s comma right_s; // 91
    zd_d comma zn_d comma right_d; // 96
    zd_d comma zd_d comma zm_d comma zn_d; // 101
    pd_t comma pg slash z comma zn_t comma zm_t; // 108
    pd_t comma pg slash z comma zn_t comma signed5b; // 117
    xd comma pattern; // 126
    xd comma pattern comma mul multiplier; // 129
    xd comma pg4 comma pn_t; // 135
    zd_t comma cpy_pg slash z comma signed8; // 140
    zd_t comma cpy_pg slash m comma signed8; // 147
    zd_h comma cpy_pg slash z comma signed8 comma lsl eight; // 154
    zd_sd comma cpy_pg slash z comma signed8 comma lsl eight; // 164
    zd_h comma cpy_pg slash m comma signed8 comma lsl eight; // 174
    zd_sd comma cpy_pg slash m comma signed8 comma lsl eight; // 184
    zd_bh comma pg slash m comma wn_sp; // 194
    zd_s comma pg slash m comma wn_sp; // 201
    zd_d comma pg slash m comma xn_sp; // 208
    zd_t comma signed8; // 215
    zd_h comma signed8 comma lsl eight; // 218
    zd_sd comma signed8 comma lsl eight; // 224
    zd_bh comma wn_sp; // 230
    zd_s comma wn_sp; // 233
    zd_d comma xn_sp; // 236
    zd_b comma zd_b comma zn_b comma extract8; // 239
    zd_t comma signed5 comma signed5b; // 246
    zd_bh comma wn comma signed5b; // 251
    zd_s comma wn comma signed5b; // 256
    zd_d comma xn comma signed5b; // 261
    zd_bh comma signed5 comma wm; // 266
    zd_s comma signed5 comma wm; // 271
    zd_d comma signed5 comma xm; // 276
    zd_bh comma wn comma wm; // 281
    zd_s comma wn comma wm; // 286
    zd_d comma xn comma xm; // 291
    wd comma pg comma zn_bh; // 296
    wd comma pg comma zn_s; // 301
    xd comma pg comma zn_d; // 306
    brace zd_b brace_end comma pg slash z comma open xn_sp close; // 311
    brace zd_b brace_end comma pg slash z comma open xn_sp comma signed4 comma mul vl close; // 322
    brace zd_b brace_end comma pg slash z comma open xn_sp comma xm_given close; // 338
    brace zd_h brace_end comma pg slash z comma open xn_sp close; // 351
    brace zd_h brace_end comma pg slash z comma open xn_sp comma signed4 comma mul vl close; // 362
    brace zd_h brace_end comma pg slash z comma open xn_sp comma xm_given close; // 378
    brace zd_s brace_end comma pg slash z comma open xn_sp close; // 391
    brace zd_s brace_end comma pg slash z comma open xn_sp comma signed4 comma mul vl close; // 402
    brace zd_s brace_end comma pg slash z comma open xn_sp comma xm_given close; // 418
    brace zd_d brace_end comma pg slash z comma open xn_sp close; // 431
    brace zd_d brace_end comma pg slash z comma open xn_sp comma signed4 comma mul vl close; // 442
    brace zd_d brace_end comma pg slash z comma open xn_sp comma xm_given close; // 458
    brace zd_d brace_end comma pg slash z comma open xn_sp comma xm_given comma lsl amount_is_3 close; // 471
    brace zd_h brace_end comma pg slash z comma open xn_sp comma xm_given comma lsl amount_is_1 close; // 487
    brace zd_s brace_end comma pg slash z comma open xn_sp comma xm_given comma lsl amount_is_1 close; // 503
    brace zd_d brace_end comma pg slash z comma open xn_sp comma xm_given comma lsl amount_is_1 close; // 519
    brace zd_d brace_end comma pg slash z comma open xn_sp comma xm_given comma lsl amount_is_2 close; // 535
    brace zd_s brace_end comma pg slash z comma open xn_sp comma xm_given comma lsl amount_is_2 close; // 551
    zd_z comma open xn_sp close; // 567
    zd_z comma open xn_sp comma signed9 comma mul vl close; // 572
    pt comma open xn_sp close; // 582
    pt comma open xn_sp comma signed9 comma mul vl close; // 587
    zd_b comma zn_b comma left_b; // 597
    zd_h comma zn_h comma left_h; // 602
    zd_s comma zn_s comma left_s; // 607
    zd_d comma zn_d comma left_d; // 612
    zd_t comma pg slash m comma zn_t comma zm_t; // 617
    zd_z comma zn_z; // 626
    zd_t comma zd_t comma signed8; // 629
    pd_b; // 634
    pg4 comma pn_b; // 635
    pd_t comma pattern; // 638
    zd_t comma zn_t; // 641
    zd_h comma zn_b comma zm_b; // 644
    zd_sd comma zn_half comma zm_half; // 649
    vd_d comma pg comma zn_bh; // 654
    vd_d comma pg comma zn_s; // 659
    zd_sd comma pg slash m comma zd_sd comma zn_sd; // 664
    zd_t comma pg4 comma zn_t comma zm_t; // 673
    pd_b comma pg4 comma pn_b comma pm_b; // 680
    zd_h comma zn_b; // 687
    zd_sd comma zn_half; // 690
    zd_h comma pg slash m comma zn_h; // 693
    zd_sd comma pg slash m comma zn_sd; // 700
    zd_d comma pg slash m comma zn_d; // 707
    vd_d comma pg comma zn_t; // 714
    pd_t comma wn comma wm; // 719
    pd_t comma xn comma xm; // 724
    pn_b; // 729
};

/// The operands of the shapes of `ItemList::Matrix`, one list after another; beside a list is its index.
pub static MATRIX_ITEMS: [Item; 866] = items! {
    za_s comma row_pn slash m comma column_pm slash m comma zn_s; // 0
    za_d comma row_pn slash m comma column_pm slash m comma zn_d; // 11
    brace za_hb open rv comma index_b close brace_end comma pg slash z comma open xn_sp comma xm close; // 22
    brace za_vb open rv comma index_b close brace_end comma pg slash z comma open xn_sp comma xm close; // 40
    brace za_hd open rv comma index_d close brace_end comma pg slash z comma open xn_sp comma xm comma lsl
        amount_is_3 close; // 58
    brace za_vd open rv comma index_d close brace_end comma pg slash z comma open xn_sp comma xm comma lsl
        amount_is_3 close; // 79
    brace za_hh open rv comma index_h close brace_end comma pg slash z comma open xn_sp comma xm comma lsl
        amount_is_1 close; // 100
    brace za_vh open rv comma index_h close brace_end comma pg slash z comma open xn_sp comma xm comma lsl
        amount_is_1 close; // 121
    brace za_hq open rv comma index_q close brace_end comma pg slash z comma open xn_sp comma xm comma lsl
        amount_is_4 close; // 142
    brace za_vq open rv comma index_q close brace_end comma pg slash z comma open xn_sp comma xm comma lsl
        amount_is_4 close; // 163
    brace za_hs open rv comma index_s close brace_end comma pg slash z comma open xn_sp comma xm comma lsl
        amount_is_2 close; // 184
    brace za_vs open rv comma index_s close brace_end comma pg slash z comma open xn_sp comma xm comma lsl
        amount_is_2 close; // 205
    za open rv comma index_0 close comma open xn_sp close; // 226
    za open rv comma index_array close comma open xn_sp comma array_offset comma mul vl close; // 236
    za_hb open rv comma index_b close comma pg slash m comma zn_b; // 251
    za_vb open rv comma index_b close comma pg slash m comma zn_b; // 263
    zd_b comma pg slash m comma source_hb open rv comma source_index_b close; // 275
    zd_b comma pg slash m comma source_vb open rv comma source_index_b close; // 287
    za_hh open rv comma index_h close comma pg slash m comma zn_h; // 299
    za_vh open rv comma index_h close comma pg slash m comma zn_h; // 311
    zd_h comma pg slash m comma source_hh open rv comma source_index_h close; // 323
    zd_h comma pg slash m comma source_vh open rv comma source_index_h close; // 335
    za_hs open rv comma index_s close comma pg slash m comma zn_s; // 347
    za_vs open rv comma index_s close comma pg slash m comma zn_s; // 359
    zd_s comma pg slash m comma source_hs open rv comma source_index_s close; // 371
    zd_s comma pg slash m comma source_vs open rv comma source_index_s close; // 383
    za_hd open rv comma index_d close comma pg slash m comma zn_d; // 395
    za_vd open rv comma index_d close comma pg slash m comma zn_d; // 407
    zd_d comma pg slash m comma source_hd open rv comma source_index_d close; // 419
    zd_d comma pg slash m comma source_vd open rv comma source_index_d close; // 431
    za_hq open rv comma index_q close comma pg slash m comma zn_q; // 443
    za_vq open rv comma index_q close comma pg slash m comma zn_q; // 455
    zd_q comma pg slash m comma source_hq open rv comma source_index_q close; // 467
    zd_q comma pg slash m comma source_vq open rv comma source_index_q close; // 479
    xd comma signed6; // 491
    za_s comma row_pn slash m comma column_pm slash m comma zn_b comma zm_b; // 494
    za_d comma row_pn slash m comma column_pm slash m comma zn_h comma zm_h; // 507
    sm; // 520
    za; // 521
    brace zt_e brace_end comma pg comma open xn_sp close; // 522
    brace zt_e brace_end comma pg comma open xn_sp comma signed4 comma mul vl close; // 531
    brace zt_e brace_end comma pg comma open xn_sp comma xm_given close; // 545
    brace za_hb open rv comma index_b close brace_end comma pg comma open xn_sp comma xm close; // 556
    brace za_vb open rv comma index_b close brace_end comma pg comma open xn_sp comma xm close; // 572
    brace zd_d brace_end comma pg comma open xn_sp close; // 588
    brace zd_d brace_end comma pg comma open xn_sp comma signed4 comma mul vl close; // 597
    brace zd_d brace_end comma pg comma open xn_sp comma xm_given comma lsl amount_is_3 close; // 611
    brace za_hd open rv comma index_d close brace_end comma pg comma open xn_sp comma xm comma lsl amount_is_3
        close; // 625
    brace za_vd open rv comma index_d close brace_end comma pg comma open xn_sp comma xm comma lsl amount_is_3
        close; // 644
    brace zd_h brace_end comma pg comma open xn_sp close; // 663
    brace zd_h brace_end comma pg comma open xn_sp comma signed4 comma mul vl close; // 672
    brace zd_h brace_end comma pg comma open xn_sp comma xm_given comma lsl amount_is_1 close; // 686
    brace zt_sd brace_end comma pg comma open xn_sp close; // 700
    brace zt_sd brace_end comma pg comma open xn_sp comma signed4 comma mul vl close; // 709
    brace zt_sd brace_end comma pg comma open xn_sp comma xm_given comma lsl amount_is_1 close; // 723
    brace za_hh open rv comma index_h close brace_end comma pg comma open xn_sp comma xm comma lsl amount_is_1
        close; // 737
    brace za_vh open rv comma index_h close brace_end comma pg comma open xn_sp comma xm comma lsl amount_is_1
        close; // 756
    brace za_hq open rv comma index_q close brace_end comma pg comma open xn_sp comma xm comma lsl amount_is_4
        close; // 775
    brace za_vq open rv comma index_q close brace_end comma pg comma open xn_sp comma xm comma lsl amount_is_4
        close; // 794
    brace zt_sd brace_end comma pg comma open xn_sp comma xm_given comma lsl amount_is_2 close; // 813
    brace za_hs open rv comma index_s close brace_end comma pg comma open xn_sp comma xm comma lsl amount_is_2
        close; // 827
    brace za_vs open rv comma index_s close brace_end comma pg comma open xn_sp comma xm comma lsl amount_is_2
        close; // 846
    zero_mask; // 865
};
