//! Prices computed with exact rational arithmetic outside the program.
//!
//! A line `base` gives an issue to the lines after it. These give the coupon, if there is one, a
//! settlement, a yield, and the printed price, after `?` if it is the boundary that stays undecided;
//! and a call, if the payments end with it.

pub const CASES: &str = "\
base periodic dated=2020-01-01 first=2020-07-01 maturity=2034-01-01
coupon=4.125 settle=2024-01-01 yield=4.125 price=100.000
coupon=4.125 settle=2023-12-31 yield=4.125 price=100.000
coupon=5 settle=2024-02-16 yield=0 price=149.375
coupon=10 settle=2024-01-01 call=2025-01-01:110.5 yield=20 price=100.000
coupon=10 settle=2024-01-01 yield=20 price=57.432
coupon=0.125 settle=2024-01-01 yield=12.3456 price=30.887
coupon=12.25 settle=2024-01-02 yield=50 price=25.367
coupon=3 settle=2024-04-01 yield=77.7777 price=3.954
coupon=0.125 settle=2024-06-30 yield=100 price=0.169
coupon=5.1 settle=2024-01-01 call=2030-01-01:102 yield=5 price=102.000
coupon=5.1 settle=2023-12-31 call=2030-01-01:102 yield=5 price=102.000
coupon=5.1 settle=2024-01-02 call=2030-01-01:102 yield=5 price=101.999
coupon=5 settle=2024-01-02 yield=5 price=99.999
coupon=5 settle=2024-06-30 yield=5 price=99.999
coupon=30 settle=2024-01-02 call=2030-01-01:1 yield=100 price=29.760
coupon=30 settle=2024-01-02 call=2030-01-01:200 yield=-5 price=483.861
coupon=6.125 settle=2024-05-07 yield=63.5478 price=9.988
coupon=2.75 settle=2024-05-23 yield=97.7066 price=2.814
coupon=3 settle=2024-01-23 yield=12.7526 price=45.902
base periodic dated=2020-01-01 first=2020-07-01 maturity=2025-01-01
coupon=5 settle=2024-04-01 yield=4 price=100.725
coupon=12.25 settle=2024-01-01 yield=-5 price=117.919
coupon=5 settle=2024-01-02 yield=-1.2345 price=106.275
coupon=30 settle=2024-04-01 yield=0.0001 price=122.499
coupon=5 settle=2024-06-30 yield=4 price=100.492
coupon=6.3125 settle=2023-12-31 yield=-1.2345 price=107.617
coupon=6.125 settle=2024-06-25 yield=92.2373 price=69.711
base periodic dated=2024-01-15 first=2024-10-01 maturity=2026-10-01
coupon=6 settle=2024-02-01 yield=0 price=116.000
base zero dated=2020-01-01 maturity=2034-01-01
settle=2024-01-01 yield=6 price=55.367
base zero dated=2020-01-01 maturity=2026-07-01
settle=2024-01-01 yield=50 price=?32.768
settle=2023-12-31 yield=50 price=?32.768
base periodic dated=2022-01-01 first=2022-07-01 maturity=2044-01-01
coupon=4 settle=2024-01-01 yield=3 price=114.957
coupon=4 settle=2024-01-01 call=2034-01-01:100 yield=3 price=108.584
base periodic dated=2020-01-01 first=2020-07-01 maturity=2024-07-01
coupon=30 settle=2023-12-31 yield=12.3456 price=108.313
coupon=8 settle=2023-12-31 yield=50 price=83.200
base periodic dated=2020-01-01 first=2020-07-01 maturity=2025-07-01
coupon=30 settle=2024-01-01 yield=50 price=80.480
coupon=30 settle=2024-01-02 yield=77.7777 price=61.528
coupon=12.25 settle=2024-04-01 yield=100 price=43.783
coupon=0.125 settle=2024-06-30 yield=-5 price=105.338
coupon=0.125 settle=2023-12-31 yield=77.7777 price=37.425
coupon=5 settle=2023-12-31 yield=50 price=?56.080
coupon=2.5 settle=2023-12-31 yield=50 price=?53.640
coupon=10 settle=2023-12-31 yield=50 price=?60.960
coupon=20 settle=2023-12-31 yield=50 price=?70.720
coupon=1.25 settle=2023-12-31 yield=50 price=?52.420
coupon=2.75 settle=2024-03-27 yield=29.2657 price=73.575
base periodic dated=2020-01-01 first=2020-07-01 maturity=2026-01-01
coupon=3 settle=2024-01-01 yield=0.0001 price=105.999
coupon=30 settle=2024-01-02 yield=4 price=149.433
coupon=0.125 settle=2024-04-01 yield=12.3456 price=81.278
coupon=3 settle=2024-06-30 yield=50 price=54.067
coupon=5 settle=2024-01-01 yield=50 price=?46.864
coupon=2.5 settle=2024-01-01 yield=50 price=?43.912
coupon=10 settle=2024-01-01 yield=50 price=?52.768
coupon=2.5 settle=2023-12-31 yield=50 price=?43.912
coupon=25 settle=2023-12-31 yield=50 price=?70.480
coupon=1.25 settle=2023-12-31 yield=50 price=?42.436
coupon=6.25 settle=2023-12-31 yield=50 price=?48.340
coupon=20 settle=2024-01-01 yield=50 price=?64.576
coupon=1.25 settle=2024-01-01 yield=50 price=?42.436
coupon=6.125 settle=2024-06-01 yield=-1.9542 price=113.059
base periodic dated=2020-01-01 first=2020-07-01 maturity=2028-07-01
coupon=5 settle=2024-01-01 yield=100 price=7.471
coupon=6.3125 settle=2024-01-02 yield=-5 price=157.859
coupon=3 settle=2024-04-01 yield=-1.2345 price=118.537
coupon=6.3125 settle=2024-06-30 yield=0.0001 price=125.267
base periodic dated=2020-01-01 first=2020-07-01 maturity=2028-01-01
coupon=12.25 settle=2023-12-31 yield=4 price=130.217
base periodic dated=2020-01-01 first=2020-07-01 maturity=2033-07-01
coupon=30 settle=2023-12-31 yield=-5 price=532.427
base periodic dated=1990-01-01 first=1990-07-01 maturity=2040-01-01
coupon=4.7777 settle=1990-01-01 yield=4 price=116.758
coupon=4.7777 settle=1990-01-01 yield=-5 price=2363.709
coupon=4.7777 settle=1990-01-01 yield=100 price=4.777
coupon=4.7777 settle=1990-01-02 yield=5.55 price=86.985
coupon=4.7777 settle=1990-04-01 yield=-5 price=2332.782
coupon=4.7777 settle=1990-06-30 yield=3.125 price=141.491
coupon=4.7777 settle=1990-03-31 yield=0.0001 price=337.679
coupon=30 settle=1990-01-01 yield=-5 price=8203.116
base zero dated=1990-01-01 maturity=2040-01-01
settle=1990-01-01 yield=4 price=13.803
settle=1990-04-01 yield=-5 price=1241.768
settle=1990-06-30 yield=100 price=0.000
settle=1990-01-02 yield=2.5 price=28.875
base periodic dated=2024-01-15 first=2024-10-01 maturity=2034-10-01
coupon=6 settle=2024-01-15 yield=4 price=117.268
base periodic dated=2024-01-15 first=2024-10-01 maturity=2026-04-01
coupon=6 settle=2024-01-16 yield=12.3456 price=88.001
coupon=6 settle=2024-02-13 yield=77.7777 price=30.156
coupon=6 settle=2024-04-14 yield=-1.2345 price=114.434
coupon=6 settle=2024-08-02 yield=100 price=30.091
base periodic dated=2024-01-15 first=2024-10-01 maturity=2044-10-01
coupon=6 settle=2024-06-13 yield=8.875 price=73.115
base periodic dated=2023-11-20 first=2024-01-01 maturity=2025-01-01
coupon=4.125 settle=2023-11-20 yield=0.0001 price=104.594
base periodic dated=2023-11-20 first=2024-01-01 maturity=2025-07-01
coupon=4.125 settle=2023-11-21 yield=-5 price=115.507
coupon=4.125 settle=2023-12-19 yield=4 price=100.184
coupon=4.125 settle=2024-04-18 yield=50 price=61.833
coupon=4.125 settle=2024-06-07 yield=2.5 price=101.698
base periodic dated=2023-11-20 first=2024-01-01 maturity=2026-07-01
coupon=4.125 settle=2024-02-18 yield=0.0001 price=109.773
base periodic dated=2023-08-31 first=2024-02-28 maturity=2025-08-28
coupon=3.0625 settle=2023-08-31 yield=0.0001 price=106.107
coupon=3.0625 settle=2023-11-29 yield=77.7777 price=34.356
base periodic dated=2023-08-31 first=2024-02-28 maturity=2026-08-28
coupon=3.0625 settle=2023-09-01 yield=77.7777 price=17.394
coupon=3.0625 settle=2023-09-29 yield=-5 price=125.639
coupon=3.0625 settle=2024-01-28 yield=0.0001 price=107.911
coupon=3.0625 settle=2024-03-18 yield=-1.2345 price=110.697
base periodic dated=2023-07-01 first=2024-07-01 maturity=2044-07-01
coupon=30 settle=2023-07-01 yield=12.3456 price=230.624
base periodic dated=2023-07-01 first=2024-07-01 maturity=2025-07-01
coupon=30 settle=2023-07-02 yield=8.875 price=137.288
base periodic dated=2023-07-01 first=2024-07-01 maturity=2027-01-01
coupon=30 settle=2023-07-30 yield=8.875 price=160.492
coupon=30 settle=2023-09-29 yield=-1.2345 price=204.189
coupon=30 settle=2023-11-28 yield=50 price=66.929
coupon=30 settle=2024-01-17 yield=100 price=31.505
base periodic dated=2023-07-02 first=2024-07-01 maturity=2034-07-01
coupon=0.0000001 settle=2023-07-02 yield=0.0001 price=99.998
coupon=0.0000001 settle=2024-01-18 yield=2.5 price=77.128
base periodic dated=2023-07-02 first=2024-07-01 maturity=2026-01-01
coupon=0.0000001 settle=2023-07-03 yield=100 price=13.228
base periodic dated=2023-07-02 first=2024-07-01 maturity=2027-01-01
coupon=0.0000001 settle=2023-07-31 yield=-5 price=118.887
coupon=0.0000001 settle=2023-09-30 yield=-5 price=117.904
base periodic dated=2023-07-02 first=2024-07-01 maturity=2025-07-01
coupon=0.0000001 settle=2023-11-29 yield=77.7777 price=35.207
base periodic dated=2024-01-02 first=2024-12-15 maturity=2034-12-15
coupon=7.7777777 settle=2024-01-02 yield=50 price=15.647
coupon=7.7777777 settle=2024-07-20 yield=4 price=131.830
base periodic dated=2024-01-02 first=2024-12-15 maturity=2025-12-15
coupon=7.7777777 settle=2024-01-03 yield=8.875 price=97.936
coupon=7.7777777 settle=2024-01-31 yield=100 price=27.066
coupon=7.7777777 settle=2024-05-31 yield=4 price=105.513
base periodic dated=2024-01-02 first=2024-12-15 maturity=2044-12-15
coupon=7.7777777 settle=2024-04-01 yield=0.0001 price=261.039
base periodic dated=2020-01-01 first=2020-07-01 maturity=2030-01-01
coupon=5.5 settle=2024-01-01 yield=-5 price=174.553
coupon=5.5 settle=2024-01-01 yield=100 price=6.228
coupon=5.5 settle=2024-04-01 yield=-5 price=170.982
coupon=5.5 settle=2024-04-01 yield=100 price=6.253
coupon=5.5 settle=2023-12-31 yield=-5 price=174.553
coupon=5.5 settle=2023-12-31 yield=100 price=6.228
coupon=5.5 settle=2024-06-30 yield=-5 price=167.478
coupon=5.5 settle=2024-06-30 yield=100 price=6.586
base zero dated=2020-01-01 maturity=2030-01-01
settle=2024-01-01 yield=-5 price=135.501
settle=2024-01-01 yield=100 price=0.770
settle=2024-04-01 yield=-5 price=133.797
settle=2024-04-01 yield=100 price=0.943
settle=2023-12-31 yield=-5 price=135.501
settle=2023-12-31 yield=100 price=0.770
settle=2024-06-30 yield=-5 price=132.132
settle=2024-06-30 yield=100 price=1.153
base periodic dated=2023-07-01 first=2024-07-01 maturity=2034-07-01
coupon=5 settle=2024-01-01 yield=5 price=99.939
coupon=5 settle=2023-12-31 yield=5 price=99.939
base zero dated=2020-01-01 maturity=2025-01-01
settle=2024-01-01 yield=50 price=64.000
settle=2023-12-31 yield=50 price=64.000
base zero dated=2020-01-01 maturity=2025-07-01
settle=2024-01-01 yield=50 price=51.200
settle=2024-01-14 yield=62.194 price=45.259
base zero dated=2020-01-01 maturity=2026-01-01
settle=2024-01-01 yield=50 price=?40.960
settle=2023-12-31 yield=50 price=?40.960
base periodic dated=2020-01-01 first=2020-07-01 maturity=2026-07-01
coupon=2.5 settle=2024-01-01 yield=50 price=36.129
coupon=25 settle=2024-01-01 yield=50 price=?66.384
coupon=1.25 settle=2024-01-01 yield=50 price=34.448
coupon=6.25 settle=2024-01-01 yield=50 price=?41.172
base periodic dated=2020-01-01 first=2020-07-01 maturity=2034-07-01
coupon=2.75 settle=2024-03-15 yield=29.6747 price=14.501
base periodic dated=2020-01-01 first=2020-07-01 maturity=2029-07-01
coupon=5 settle=2024-05-12 yield=86.6677 price=8.011
coupon=3 settle=2024-02-08 yield=35.2558 price=24.348
coupon=2.75 settle=2024-01-09 yield=6.5648 price=82.682
coupon=4.5 settle=2024-04-26 yield=40.7628 price=24.007
base zero dated=2020-01-01 maturity=2044-07-01
settle=2024-02-19 yield=65.326 price=0.000
settle=2024-02-09 yield=-4.8127 price=270.074
base periodic dated=2020-01-01 first=2020-07-01 maturity=2027-01-01
coupon=5 settle=2024-04-22 yield=98.8931 price=15.854
coupon=3 settle=2024-01-13 yield=96.3295 price=12.498
base periodic dated=2020-01-01 first=2020-07-01 maturity=2029-01-01
coupon=2.75 settle=2024-01-17 yield=73.2311 price=8.107
coupon=6.125 settle=2024-02-14 yield=-4.2868 price=157.209
coupon=4.5 settle=2024-03-13 yield=95.0053 price=6.915
base periodic dated=2020-01-01 first=2020-07-01 maturity=2044-01-01
coupon=2.75 settle=2024-02-21 yield=10.803 price=34.671
base periodic dated=2020-01-01 first=2020-07-01 maturity=2027-07-01
coupon=2.75 settle=2024-05-27 yield=29.3447 price=48.197
coupon=5 settle=2024-01-25 yield=47.353 price=31.318
base zero dated=2020-01-01 maturity=2027-07-01
settle=2024-03-02 yield=14.2463 price=63.232
base zero dated=2020-01-01 maturity=2029-01-01
settle=2024-03-01 yield=-4.1684 price=122.580";
